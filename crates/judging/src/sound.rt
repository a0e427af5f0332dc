// The whole judgement.
ghost use Rattle.std.specs.Prelude.{◌≡◌, length};
ghost use Rattle.seq.specs.Numbers.{seq_of};
ghost use Rattle.engine.specs.Packets.{first_of};
ghost use Rattle.engine.specs.Decide.{soundb, sound_withb};
ghost use Rattle.engine.specs.Found.{first_ok, rows_from, found_sound};
ghost use Rattle.words.specs.Layout.{WORDS};
ghost use Rattle.words.specs.Meaning.{state_of};
ghost use Rattle.judging.specs.Words.{sums_ok, links_ok};

use crate::pass::tallied;
use crate::roster::distinct;
use engine::packets::Tally;
use engine::received::found_records;
use engine::sizes::PACKET_ROUND;
use engine::sound::{receiving_ok, row_ok};
use engine::{PACKETS, SLOTS};
use link::sizes::MAX_TIME;
use seq::Seq;
use words::layout::{PACKET, PACKETS_START, TIME, WORDS};
use words::receiving::rx_of;
use words::row::row_at;
use words::sending::tx_of;

// The tag of a packet that is Received.
const RECEIVED: u64 = 3;

// The first packet isn't Received: its tag alone is read.
fn first_ok(words: &[u64; WORDS], count: usize, first: Seq) -> bool
    requires { (count ≡ (state_of words.now).tx.txed_count) × (first ≡ seq_of (first_of (state_of words.now).tx)) }
    ensures { result ≡ first_ok (state_of words.now).tx }
{
    if count == 0 {
        return true;
    }
    let at = (first.0 % PACKET_ROUND) as usize;
    words[PACKETS_START + at * PACKET + 2] != RECEIVED
}

fn rows_ok(words: &[u64; WORDS], on: [u32; SLOTS], time: u64) -> bool
    ensures { result ≡ rows_from (state_of words.now).links on time 0 8 }
{
    for (slot, bytes) in on.iter().enumerate() {
        if !row_ok(row_at(words, slot), *bytes, time) {
            return false;
        }
    }
    true
}

// The sums of a pass are those that the words say.
fn sums_ok(words: &[u64; WORDS], t: Tally) -> bool
    ensures { result ≡ sums_ok (state_of words.now).tx t }
{
    let tx = tx_of(words);
    if t.queued != tx.resend_count {
        return false;
    }
    if PACKETS < tx.resend_count {
        return false;
    }
    t.unacked == tx.txed_unacked && t.unconsumable == tx.txed_unconsumable
}

fn links_ok(words: &[u64; WORDS], on: [u32; SLOTS], time: u64) -> bool
    ensures { result ≡ links_ok (state_of words.now).links on time }
{
    if !rows_ok(words, on, time) {
        return false;
    }
    if !distinct(words) {
        return false;
    }
    time <= MAX_TIME
}

// What the passes find. A count above PACKETS is told first: a pass goes through as many packets as the count says.
fn found_sound(words: &[u64; WORDS]) -> bool
    ensures { result ≡ found_sound (state_of words.now) }
{
    let tx = tx_of(words);
    if PACKETS < tx.txed_count {
        return false;
    }
    let rx = rx_of(words);
    if !receiving_ok(rx) {
        return false;
    }
    let n = tx.tx_seq.sub(tx.txed_count as u32);
    if !first_ok(words, tx.txed_count, n) {
        return false;
    }
    let now = words[TIME];
    let tally = tallied(words, tx.txed_count, n, now);
    match tally {
        None => false,
        Some(t) => {
            if !sums_ok(words, t) {
                return false;
            }
            links_ok(words, t.on, now)
        }
    }
}

// Whether the words are those of a sound state, but for what the records hold.
pub fn is_sound(words: &[u64]) -> bool
    ensures { result ≡ soundb (state_of words.now) }
{
    let Some(words) = words.as_array::<WORDS>() else {
        return false;
    };
    found_sound(words)
}

// .. and sound with these records.
pub fn is_sound_with(words: &[u64], records: &[u64]) -> bool
    ensures { result ≡ sound_withb (state_of words.now) records.now }
{
    if !is_sound(words) {
        return false;
    }
    let Some(words) = words.as_array::<WORDS>() else {
        return false;
    };
    let rx = rx_of(words);
    if records.len() != rx.cells as usize {
        return false;
    }
    found_records(rx, records)
}
