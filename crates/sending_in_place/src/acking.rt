// An ack of a number arrives over a link: what it does to the link's row and the acked packet, and the sweep of the table's front.
ghost use Rattle.std.specs.Prelude.{◌≡◌, ◌+◌, ◌≤◌, ◌<◌, ◌^◌, length};
ghost use Rattle.link.specs.Fields.{with_acks};
ghost use Rattle.engine.specs.Sizes.{PACKETS};
ghost use Rattle.engine.specs.Sound.{row_at};
ghost use Rattle.engine.specs.Fields.{with_tx};
ghost use Rattle.engine.specs.Table.{packet_of};
ghost use Rattle.engine.specs.Acking.{received_tx, settled_tx, swept_tx, acked_row, acked_tx, ack_verdict, ack_of};
ghost use Rattle.words.specs.Layout.{WORDS};
ghost use Rattle.words.specs.Meaning.{state_of};
ghost use Rattle.words.specs.Encoded.{numbers_of};
ghost use Rattle.words.specs.Ready.{Ready, Left};
ghost use Rattle.engine.specs.Answer.{outcome_told};

use crate::gates::timed_verdict;
use crate::queue::requeue;
use crate::table::{cell_of, first_cell, in_table};
use engine::acking::settle_row;
use engine::packets::is_received;
use engine::ring::next_cell;
use engine::totals::less;
use engine::{PACKETS, SentReliable, SentReliableStatus};
use link::LinkRow;
use refusal::{Refusal, refuse_unless};
use seq::Seq;
use words::clock::put_time;
use words::layout::WORDS;
use words::packet::{packet_at, put_received};
use words::row::{put_acked, row_at};
use words::sending::{
    SendingNumbers, put_txed_count, put_txed_last_consumed, put_txed_unacked,
    put_txed_unconsumable, tx_of,
};

// The packet becomes Received, and its size moves from one total to the other.
fn settle_packet(words: &mut [u64; WORDS], seq: Seq, p: SentReliable)
    requires { (p ≡ packet_of (state_of words.old).tx seq.0) × ((state_of words.old).tx.txed_unconsumable + p.len < 2 ^ 32) }
    ensures { state_of words.new ≡ with_tx (state_of words.old) (received_tx (state_of words.old).tx seq.0 p) }
{
    let tx = tx_of(words);
    let len = p.len;
    put_received(words, cell_of(seq));
    put_txed_unacked(words, less(tx.txed_unacked, len));
    put_txed_unconsumable(words, tx.txed_unconsumable + len);
}

// The sending half, by the packet's status.
fn settle_tx(words: &mut [u64; WORDS], slot: u8, seq: Seq, p: SentReliable)
    requires { (p ≡ packet_of (state_of words.old).tx seq.0) × ((state_of words.old).tx.txed_unconsumable + p.len < 2 ^ 32) × ((state_of words.old).tx.txed_count ≤ PACKETS) }
    ensures { state_of words.new ≡ with_tx (state_of words.old) (settled_tx (state_of words.old).tx slot seq.0 p) }
{
    let status = p.status;
    match status {
        SentReliableStatus::Sent(flight) => {
            if flight.slot == slot {
                settle_packet(words, seq, p);
            }
        }
        SentReliableStatus::Received => {}
        SentReliableStatus::ResendQueued { sent_link: _ } => {
            settle_packet(words, seq, p);
            requeue(words);
        }
    }
}

// The numbers after a sweep of the Received packets at the front.
fn swept(words: &[u64; WORDS]) -> SendingNumbers
    requires { (state_of words.now).tx.txed_count ≤ PACKETS }
    ensures { result ≡ numbers_of (swept_tx (state_of words.now).tx) }
{
    let mut tx = tx_of(words);
    let mut at = first_cell(tx);
    for _ in 0..tx.txed_count {
        let p = packet_at(words, at);
        let status = p.status;
        tx.txed_last_consumed = p.seq;
        if !is_received(status) {
            return tx;
        }
        tx.txed_unconsumable = less(tx.txed_unconsumable, p.len);
        tx.txed_count -= 1;
        at = next_cell(PACKETS, at);
    }
    tx
}

fn sweep(words: &mut [u64; WORDS])
    requires { (state_of words.old).tx.txed_count ≤ PACKETS }
    ensures { state_of words.new ≡ with_tx (state_of words.old) (swept_tx (state_of words.old).tx) }
{
    let tx = swept(words);
    let last = tx.txed_last_consumed;
    put_txed_count(words, tx.txed_count);
    put_txed_last_consumed(words, last);
    put_txed_unconsumable(words, tx.txed_unconsumable);
}

// The acked packet, where the table holds the number; the answer is the link's row, but for its acks. The mark's step comes first, and a flag that it sets counts in this ack.
fn settle(words: &mut [u64; WORDS], slot: u8, time: u64, seq: Seq) -> LinkRow
    requires { Ready words.old × (slot < 8) }
    ensures ack_count_value { with_acks result (row_at (state_of words.old) slot).tx_ack_queue result.ack_count ≡ acked_row (state_of words.old) slot time seq.0 }
    ensures words_after { state_of words.new ≡ with_tx (state_of words.old) (acked_tx (state_of words.old) slot seq.0) }
{
    let row = row_at(words, slot as usize).mark_acked(seq);
    let tx = tx_of(words);
    if !in_table(tx, seq) {
        return row;
    }
    let p = packet_at(words, cell_of(seq));
    settle_tx(words, slot, seq, p);
    settle_row(row, p, slot, time)
}

// Its own gate judges the number against the next to send.
fn ack_verdict(words: &[u64; WORDS], slot: u8, time: u64, seq: Seq) -> Result<(), Refusal>
    requires { Ready words.now }
    ensures { result ≡ ack_verdict (state_of words.now) slot time seq.0 }
{
    timed_verdict(words, slot, time)?;
    refuse_unless(seq.is_near(tx_of(words).tx_seq), Refusal::Far)
}

pub fn ack(words: &mut [u64; WORDS], slot: u8, time: u64, seq: Seq) -> Result<(), Refusal>
    requires { Ready words.old }
    ensures value { result ≡ (ack_of (state_of words.old) slot time seq.0).outcome }
    ensures words_after { state_of words.new ≡ (ack_of (state_of words.old) slot time seq.0).state }
    ensures left { Left (outcome_told result).number words.old words.new }
{
    ack_verdict(words, slot, time, seq)?;
    let row = settle(words, slot, time, seq);
    sweep(words);
    put_acked(words, slot as usize, row);
    put_time(words, time);
    Ok(())
}
