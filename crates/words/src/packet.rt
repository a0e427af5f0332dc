// A packet of the table, in its eight words.
ghost use Rattle.std.specs.Prelude.{◌≡◌, ◌<◌, ◌^◌, length, get_or, set};
ghost use Rattle.engine.specs.Fields.{with_status, with_tx, with_packets};
ghost use Rattle.engine.specs.Packets.{no_packet};
ghost use Rattle.words.specs.Layout.{WORDS};
ghost use Rattle.words.specs.Meaning.{flight_of, status_of, packet_of, state_of};
ghost use Rattle.words.specs.Encoded.{status_word, flight_in, packet_words};

use crate::bits::{flag, is_set, seq_word};
use crate::layout::{PACKET, PACKETS_START, WORDS};
use engine::records::record_of;
use engine::{InFlight, SentReliable, SentReliableStatus, held_of};
use msg::ReliableMsg;
use seq::Seq;

// A slot and a length that no sound state has: what a tag and a message word that are none say. Numbers, since `status_of` and `packet_of`, which the contracts cite, have them.
const NO_SLOT: u8 = 255;

const NO_LENGTH: u32 = 0xFF_FFFF;

// The tag of a packet that was Received.
const RECEIVED: u64 = 3;

fn flight_in(part: &[u64], slot: u8, resent: bool) -> InFlight
    requires { length part.now ≡ 8 }
    ensures { result ≡ flight_of part.now slot resent }
{
    InFlight {
        sent: part[5],
        flushed: is_set(part[6]).then_some(part[7]),
        slot,
        link: part[4],
        resent,
    }
}

fn status_in(part: &[u64]) -> SentReliableStatus
    requires { length part.now ≡ 8 }
    ensures { result ≡ status_of part.now }
{
    let slot = (part[3] % 0x100) as u8;
    match part[2] {
        1 => SentReliableStatus::Sent(flight_in(part, slot, false)),
        2 => SentReliableStatus::Sent(flight_in(part, slot, true)),
        RECEIVED => SentReliableStatus::Received,
        4 => SentReliableStatus::ResendQueued { sent_link: part[4] },
        _ => SentReliableStatus::Sent(flight_in(part, NO_SLOT, false)),
    }
}

fn packet_in(part: &[u64]) -> SentReliable
    requires { length part.now ≡ 8 }
    ensures { result ≡ packet_of part.now }
{
    let seq = seq_word(part[0]);
    let (msg, len) = held_of(part[1]).unwrap_or((ReliableMsg::Data, NO_LENGTH));
    SentReliable::new(seq, msg, len, status_in(part))
}

// What a cell of the table holds.
pub fn packet_at(words: &[u64; WORDS], at: usize) -> SentReliable
    requires { at < 64 }
    ensures value { result ≡ get_or (state_of words.now).tx.txed_packets at no_packet }
    ensures len_bound { result.len < 2 ^ 24 }
{
    let start = PACKETS_START + at * PACKET;
    let end = start + PACKET;
    packet_in(&words[start..end])
}

fn status_word(status: SentReliableStatus) -> u64
    ensures { result ≡ status_word status }
{
    match status {
        SentReliableStatus::Sent(flight) => { if flight.resent { 2 } else { 1 } }
        SentReliableStatus::Received => 3,
        SentReliableStatus::ResendQueued { sent_link: _ } => 4,
    }
}

// The flight that a status is written from; of one that is in none, what is never read is 0.
fn flight_of(status: SentReliableStatus) -> InFlight
    ensures { result ≡ flight_in status }
{
    match status {
        SentReliableStatus::Sent(flight) => flight,
        SentReliableStatus::Received => InFlight::new(0, 0, 0, false),
        SentReliableStatus::ResendQueued { sent_link } => InFlight::new(0, 0, sent_link, false),
    }
}

fn write_packet(part: &mut [u64], p: SentReliable)
    requires { (length part.old ≡ 8) × (p.len < 2 ^ 24) }
    ensures part_after { part.new ≡ packet_words p }
    ensures status_bound { (flight_in p.status).slot < 256 }
{
    let status = p.status;
    let msg = p.msg;
    let flight = flight_of(status);
    let flushed = flight.flushed;
    part.copy_from_slice(&[
        u64::from(p.seq.0),
        record_of(Some((msg, p.len))),
        status_word(status),
        u64::from(flight.slot),
        flight.link,
        flight.sent,
        flag(flushed.is_some()),
        flushed.unwrap_or(0),
    ]);
}

// Another packet in a cell of the table.
pub fn put_packet(words: &mut [u64; WORDS], at: usize, p: SentReliable)
    requires { (at < 64) × (p.len < 2 ^ 24) }
    ensures { state_of words.new ≡ with_tx (state_of words.old) (with_packets (state_of words.old).tx (set (state_of words.old).tx.txed_packets at p)) }
{
    let start = PACKETS_START + at * PACKET;
    let end = start + PACKET;
    write_packet(&mut words[start..end], p);
}

// The packet in a cell of the table was Received: its tag says so, and nothing else of it is asked.
pub fn put_received(words: &mut [u64; WORDS], at: usize)
    requires { at < 64 }
    ensures { state_of words.new ≡ with_tx (state_of words.old) (with_packets (state_of words.old).tx (set (state_of words.old).tx.txed_packets at (with_status (get_or (state_of words.old).tx.txed_packets at no_packet) SentReliableStatus.Received))) }
{
    words[PACKETS_START + at * PACKET + 2] = RECEIVED;
}
