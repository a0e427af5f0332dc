// The calls of the table, as a line's words give them.
use crate::message;
use crate::rows::MOST_ROWS;
use crate::words::Words;
use engine::{DATA_BYTES, LEAST_CELLS, MOST_CELLS, SENT_BYTES, SLOTS};
use link::AckTimeout;
use msg::{LinkMsg, ReliableMsg};
use seq::Seq;

// A call on a state, and on its stores and records. Of `send` and `receive` the bytes are in the payload buffer, and the call says how many.
#[derive(Clone, Copy)]
pub enum OnState {
    Add(u64, u64, Option<u64>, bool, bool),
    Remove(u8),
    Confirm(u8),
    Unconfirm(u8),
    Block(u8, bool),
    Ping(u8, u64),
    Flush(u8, u64),
    Pong(u8, u64),
    Mark(u8, Seq),
    Ack(u8, u64, Seq),
    TakeAck(u8),
    Due,
    Close,
    Deadline(AckTimeout, bool),
    // with how many rows are lent
    Slow(usize),
    LendSent(usize),
    LendReceived(usize),
    LendRecords(usize),
    Send(u8, u64, ReliableMsg, usize),
    Resend(u8, u64, Seq),
    Receive(u8, ReliableMsg, Seq, usize),
    Show,
    Take,
    Dump,
}

// A call of the table; of `read` the bytes are in the payload buffer too.
#[derive(Clone, Copy)]
pub enum Call {
    Fresh(Seq, u32, u32),
    Read(usize),
    Write(usize, LinkMsg),
    OnState(OnState),
}

// The bytes that `write` may have room for.
pub const MOST_ROOM: usize = 2048;

// The lengths that the stores and the records may be lent with: up to one more than the engine takes at the most cells.
pub const MOST_SENT_LENT: usize = SENT_BYTES + 1;

pub const MOST_RECEIVED_LENT: usize = MOST_CELLS as usize * DATA_BYTES + 1;

pub const MOST_RECORDS_LENT: usize = MOST_CELLS as usize + 1;

fn fresh(words: &mut Words) -> Option<Call> {
    let start = words.seq()?;
    let buffer = words.number()?;
    let cells = if words.are_over() {
        LEAST_CELLS
    } else {
        words.number()?
    };
    Some(Call::Fresh(start, buffer, cells))
}

fn add(words: &mut Words) -> Option<OnState> {
    let identity = words.long()?;
    let trip = words.long()?;
    let max = words.limit()?;
    let is_blocked = words.flag()?;
    let is_unconfirmed = words.flag()?;
    Some(OnState::Add(identity, trip, max, is_blocked, is_unconfirmed))
}

fn deadline(words: &mut Words) -> Option<OnState> {
    let timeout = AckTimeout {
        roundtrip_factor: words.long()?,
        resent_factor: words.long()?,
        unreliable_factor: words.long()?,
        min: words.long()?,
        max: words.long()?,
    };
    Some(OnState::Deadline(timeout, words.flag()?))
}

fn slow(words: &mut Words) -> Option<OnState> {
    if words.are_over() {
        return Some(OnState::Slow(SLOTS));
    }
    Some(OnState::Slow(words.size(MOST_ROWS)?))
}

fn lend(words: &mut Words) -> Option<OnState> {
    match words.next()? {
        b"sent" => Some(OnState::LendSent(words.size(MOST_SENT_LENT)?)),
        b"received" => Some(OnState::LendReceived(words.size(MOST_RECEIVED_LENT)?)),
        b"records" => Some(OnState::LendRecords(words.size(MOST_RECORDS_LENT)?)),
        _ => None,
    }
}

fn send(words: &mut Words, payload: &mut [u8]) -> Option<OnState> {
    let slot = words.byte()?;
    let time = words.long()?;
    let kind = words.byte()?;
    let msg = message::reliable(kind, words.number()?)?;
    Some(OnState::Send(slot, time, msg, words.bytes(payload)?))
}

fn receive(words: &mut Words, payload: &mut [u8]) -> Option<OnState> {
    let slot = words.byte()?;
    let kind = words.byte()?;
    let seq = words.seq()?;
    let msg = message::reliable(kind, words.number()?)?;
    Some(OnState::Receive(slot, msg, seq, words.bytes(payload)?))
}

// A call on a link's slot.
fn on_slot(name: &[u8], words: &mut Words) -> Option<OnState> {
    let slot = words.byte()?;
    match name {
        b"remove" => Some(OnState::Remove(slot)),
        b"confirm" => Some(OnState::Confirm(slot)),
        b"unconfirm" => Some(OnState::Unconfirm(slot)),
        b"takeack" => Some(OnState::TakeAck(slot)),
        b"block" => Some(OnState::Block(slot, words.flag()?)),
        b"mark" => Some(OnState::Mark(slot, words.seq()?)),
        _ => timed(name, slot, words),
    }
}

// .. at a time.
fn timed(name: &[u8], slot: u8, words: &mut Words) -> Option<OnState> {
    let time = words.long()?;
    match name {
        b"ping" => Some(OnState::Ping(slot, time)),
        b"flush" => Some(OnState::Flush(slot, time)),
        b"pong" => Some(OnState::Pong(slot, time)),
        b"ack" => Some(OnState::Ack(slot, time, words.seq()?)),
        b"resend" => Some(OnState::Resend(slot, time, words.seq()?)),
        _ => None,
    }
}

fn on_state(name: &[u8], words: &mut Words, payload: &mut [u8]) -> Option<OnState> {
    match name {
        b"add" => add(words),
        b"due" => Some(OnState::Due),
        b"close" => Some(OnState::Close),
        b"show" => Some(OnState::Show),
        b"take" => Some(OnState::Take),
        b"dump" => Some(OnState::Dump),
        b"deadline" => deadline(words),
        b"slow" => slow(words),
        b"lend" => lend(words),
        b"send" => send(words, payload),
        b"receive" => receive(words, payload),
        _ => on_slot(name, words),
    }
}

fn read_call(words: &mut Words, payload: &mut [u8]) -> Option<Call> {
    match words.next()? {
        b"fresh" => fresh(words),
        b"read" => Some(Call::Read(words.bytes(payload)?)),
        b"write" => {
            let room = words.size(MOST_ROOM)?;
            Some(Call::Write(room, message::link_msg(words)?))
        }
        name => Some(Call::OnState(on_state(name, words, payload)?)),
    }
}

// What a line calls, if it is a call of the table; bytes among its words go to the start of the payload buffer.
pub fn parse(line: &[u8], payload: &mut [u8]) -> Option<Call> {
    let mut words = Words::of(line);
    let call = read_call(&mut words, payload)?;
    words.are_over().then_some(call)
}
