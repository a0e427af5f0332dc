// A packet judged by its words. What it says is read no further than the tests go.
ghost use Rattle.std.specs.Prelude.{◌≡◌, ◌%◌, ◌<◌, length, slice_index_or};
ghost use Rattle.seq.specs.Numbers.{seq_of};
ghost use Rattle.engine.specs.Packets.{no_packet};
ghost use Rattle.engine.specs.Records.{held_of};
ghost use Rattle.engine.specs.Roster.{roster_of};
ghost use Rattle.engine.specs.Tally.{flushed_ok};
ghost use Rattle.words.specs.Layout.{WORDS};
ghost use Rattle.words.specs.Meaning.{flushed_of, packet_of, state_of};
ghost use Rattle.judging.specs.Weights.{held_fine, flight_fine, status_weight, weight_of};

use crate::roster::lives_in;
use engine::packets::length_ok;
use engine::records::{is_data_record, length_in};
use engine::{Held, PACKETS, held_of};
use seq::Seq;
use words::layout::{PACKET, PACKETS_START, WORDS};
use words::queues::queued_at;

// What a packet that is well adds to the tally, by its status: its bytes, and a Sent one's slot.
#[derive(Clone, Copy)]
pub enum Weight {
    Flying(usize, u32),
    Settled(u32),
    Waiting(u32),
}

// Data is told first, since most packets are.
fn message_ok(word: u64) -> bool
    ensures { result ≡ held_fine (held_of word) }
{
    if is_data_record(word) {
        return true;
    }
    let held = held_of(word);
    match held {
        None => false,
        Some((msg, len)) => length_ok(msg, len as usize),
    }
}

fn flushed_ok(some: u64, at: u64, time: u64) -> bool
    ensures { result ≡ flushed_ok (flushed_of some at) time }
{
    if some == 0 {
        return true;
    }
    at <= time
}

// Whether a packet's flight is over a live link, and not later than the time.
fn flight_ok(words: &[u64; WORDS], part: &[u64], slot: usize, time: u64) -> bool
    requires { length part.now ≡ 8 }
    ensures { result ≡ flight_fine (roster_of (state_of words.now).links) part.now slot time }
{
    if !lives_in(words, slot, part[4]) {
        return false;
    }
    if time < part[5] {
        return false;
    }
    flushed_ok(part[6], part[7], time)
}

// What a packet adds whose number n and message are well. Sent, a tag of 1 or 2, is told first, since most packets are.
fn status_in(words: &[u64; WORDS], part: &[u64], n: Seq, queued: usize, time: u64) -> Option<Weight>
    requires { length part.now ≡ 8 }
    ensures { result ≡ status_weight part.now n (slice_index_or (state_of words.now).tx.resend_queue (queued % 64) (seq_of 0)) (roster_of (state_of words.now).links) time }
{
    let len = length_in(part[1]);
    let tag = part[2];
    if std::num::wrapping_sub_u64(tag, 1) < 2 {
        let slot = (part[3] % 0x100) as usize;
        if flight_ok(words, part, slot, time) {
            return Some(Weight::Flying(slot, len));
        }
        return None;
    }
    if tag == 3 {
        return Some(Weight::Settled(len));
    }
    if tag != 4 {
        return None;
    }
    if queued_at(words, queued % PACKETS) == n {
        return Some(Weight::Waiting(len));
    }
    None
}

fn weight_in(words: &[u64; WORDS], part: &[u64], n: Seq, queued: usize, time: u64) -> Option<Weight>
    requires { length part.now ≡ 8 }
    ensures { result ≡ weight_of (packet_of part.now) n (slice_index_or (state_of words.now).tx.resend_queue (queued % 64) (seq_of 0)) (roster_of (state_of words.now).links) time }
{
    let seq = Seq((part[0] % 0x1_0000_0000) as u32);
    if seq != n {
        return None;
    }
    if !message_ok(part[1]) {
        return None;
    }
    status_in(words, part, n, queued, time)
}

// What the packet in a cell adds, which is to be the number n, with so many queued before it; nothing where it is not well.
pub(crate) fn weight_at(
    words: &[u64; WORDS],
    at: usize,
    n: Seq,
    queued: usize,
    time: u64,
) -> Option<Weight>
    requires { at < 64 }
    ensures { result ≡ weight_of (slice_index_or (state_of words.now).tx.txed_packets at no_packet) n (slice_index_or (state_of words.now).tx.resend_queue (queued % 64) (seq_of 0)) (roster_of (state_of words.now).links) time }
{
    let start = PACKETS_START + at * PACKET;
    let end = start + PACKET;
    let part = &words[start..end];
    weight_in(words, part, n, queued, time)
}
