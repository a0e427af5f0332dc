// A sound state, made by calls alone, that has something in every field: numbers that wrap; packets that are Sent and flushed,
// Received and ResendQueued; a ping; acks that wait; messages that are ready and held, and data that was taken.
//
//     slot     0: identity 11, 7 bytes unacked, 3 acks    1: identity 12, a ping since 5    2: identity 13, unconfirmed
//     packet   fffffffe: 3 bytes, Sent over slot 0    ffffffff: 5 bytes, Received    0: 2 bytes, ResendQueued
//              1: 4 bytes, Sent over slot 0    2: 7 bytes, ResendQueued; the next number is 3
//     cell     64 of them; ffffffff: 4 bytes, ready; 0 is expected; 1: 5 bytes, held; 2 is the end; 3 bytes were taken
//     time     5
use engine::{Changed, LEAST_CELLS, SENT_BYTES, State, TakeResult};
use msg::ReliableMsg;
use seq::Seq;

pub type SentStore = [u8; SENT_BYTES];

// Room for twice as many cells as the good state has.
pub const ROOM: usize = 128;

pub const ROOM_BYTES: usize = 131_072;

pub type ReceivedStore = [u8; ROOM_BYTES];

pub type Records = [u64; ROOM];

// How many bytes of the received store are lent, and how many records.
#[derive(Clone, Copy)]
pub struct Lent {
    pub bytes: usize,
    pub words: usize,
}

// What the good state's cells take, all of which its receive buffer may fill.
pub const LENT: Lent = Lent {
    bytes: BYTES,
    words: WORDS,
};

pub const WORDS: usize = 64;

pub const BYTES: usize = 65_536;

pub const BUFFER: u32 = 65_536;

// The numbers of the first two packets, and of the first two messages that were received.
pub const FIRST: u32 = 0xFFFF_FFFE;

pub const SECOND: u32 = 0xFFFF_FFFF;

// The first n, or all where there are fewer.
pub fn first<T>(run: &[T], n: usize) -> &[T] {
    &run[..n.min(run.len())]
}

pub fn first_mut<T>(run: &mut [T], n: usize) -> &mut [T] {
    let end = n.min(run.len());
    &mut run[..end]
}

// Over slot 0.
pub fn receive(
    s: &State,
    received: &mut [u8],
    records: &mut [u64],
    lent: Lent,
    n: u32,
    payload: &[u8],
) -> Changed {
    engine::receive(
        *s,
        first_mut(received, lent.bytes),
        first_mut(records, lent.words),
        0,
        ReliableMsg::Data,
        Seq(n),
        payload,
    )
}

pub fn take(s: &State, records: &mut [u64], words: usize) -> TakeResult {
    engine::take(*s, first_mut(records, words))
}

pub fn is_sound(s: &State, records: &[u64], words: usize) -> bool {
    engine::is_sound_with(*s, first(records, words))
}

pub fn fresh(start: u32, records: &mut [u64]) -> State {
    let words = first_mut(records, WORDS);
    engine::fresh(Seq(start), BUFFER, LEAST_CELLS, words).state
}

fn linked(records: &mut Records) -> State {
    let mut s = fresh(FIRST, records);
    for id in [11, 12, 13] {
        s = engine::add(s, id, 50, Some(40), false, false).state;
    }
    s
}

fn sent_to(mut s: State, sent: &mut SentStore) -> State {
    for (slot, time, payload) in [
        (0, 1, "abc"),
        (1, 1, "defgh"),
        (2, 2, "ij"),
        (0, 2, "klmn"),
        (2, 3, "opqrstu"),
    ] {
        let data = payload.as_bytes();
        s = engine::send(s, sent, slot, time, ReliableMsg::Data, data).state;
    }
    s
}

fn settled(s: State) -> State {
    let acked = engine::ack(s, 1, 3, Seq(SECOND)).state;
    let unconfirmed = engine::unconfirm(acked, 2).state;
    let flushed = engine::flush(unconfirmed, 0, 4).state;
    engine::ping(flushed, 1, 5).state
}

fn heard(mut s: State, received: &mut ReceivedStore, records: &mut Records) -> State {
    for (n, payload) in [(FIRST, "ABC"), (SECOND, "DEFG"), (1, "HIJKL")] {
        s = receive(&s, received, records, LENT, n, payload.as_bytes()).state;
    }
    take(&s, records, WORDS).state
}

pub fn state(sent: &mut SentStore, received: &mut ReceivedStore, records: &mut Records) -> State {
    let linked = linked(records);
    let sent_to = sent_to(linked, sent);
    heard(settled(sent_to), received, records)
}
