// An ack of a number arrives over a link: what it does to the link's row and the acked packet, and the sweep of the table's front.
ghost use Rattle.std.specs.Prelude.{◌≡◌, ◌+◌, ◌^◌, ◌<◌, ◌≤◌, []};
ghost use Rattle.refusal.specs.Answers.{told_by};
ghost use Rattle.engine.specs.Answer.{outcome_told};
ghost use Rattle.engine.specs.Sound.{Sound};
ghost use Rattle.engine.specs.Acking.{settled_row, received_tx, settled_tx, sweep_of, swept_tx, acked_row, acked_tx, ack_verdict, ack_of};
ghost use Rattle.engine.specs.Sizes.{PACKETS};

use crate::answer::Changed;
use crate::gates::timed_gates;
use crate::packets::is_received;
use crate::queue::requeue;
use crate::rows::{row_of, with_row};
use crate::state::{Sending, SentReliable, SentReliableStatus, State};
use crate::table::{InOrder, in_table, packet_of, with_packet};
use link::LinkRow;
use refusal::{Refusal, refuse_unless};
use seq::Seq;

// The row, where the packet was Sent over its slot.
pub fn settle_row(row: LinkRow, p: SentReliable, slot: u8, time: u64) -> LinkRow
    ensures { result ≡ settled_row row p slot time }
{
    match p.status {
        SentReliableStatus::Sent(flight) => {
            if flight.slot != slot {
                return row;
            }
            let bytes = row.txed_unacked_data.saturating_sub(p.len);
            row.with_unacked(bytes).trip(flight.sent, time)
        }
        SentReliableStatus::Received | SentReliableStatus::ResendQueued { .. } => row,
    }
}

// The packet becomes Received, and its size moves from one total to the other.
fn received_tx(tx: Sending, seq: Seq, p: SentReliable) -> Sending
    requires { tx.txed_unconsumable + p.len < 2 ^ 32 }
    ensures { result ≡ received_tx tx seq.0 p }
{
    Sending {
        txed_unacked: tx.txed_unacked.saturating_sub(p.len),
        txed_unconsumable: tx.txed_unconsumable + p.len,
        ..with_packet(tx, seq, p.with_status(SentReliableStatus::Received))
    }
}

// The sending half, by the packet's status.
fn settle_tx(tx: Sending, slot: u8, seq: Seq, p: SentReliable) -> Sending
    requires { (tx.txed_unconsumable + p.len < 2 ^ 32) × (tx.txed_count ≤ PACKETS) }
    ensures { result ≡ settled_tx tx slot seq.0 p }
{
    match p.status {
        SentReliableStatus::Sent(flight) if slot == flight.slot => received_tx(tx, seq, p),
        SentReliableStatus::ResendQueued { .. } => requeue(received_tx(tx, seq, p)),
        _ => tx,
    }
}

// What a sweep leaves: how many packets, the last number looked at, and the bytes that still wait.
#[derive(Clone, Copy)]
struct Front {
    left: usize,
    last: Seq,
    held: u32,
}

fn swept(tx: Sending) -> Front
    requires { tx.txed_count ≤ PACKETS }
    ensures { result ≡ sweep_of tx }
{
    let mut front = Front {
        left: tx.txed_count,
        last: tx.txed_last_consumed,
        held: tx.txed_unconsumable,
    };
    for p in InOrder::of(&tx) {
        front.last = p.seq;
        if !is_received(p.status) {
            return front;
        }
        front.held = front.held.saturating_sub(p.len);
        front.left -= 1;
    }
    front
}

// Drops the Received packets at the front.
fn sweep(tx: Sending) -> Sending
    requires { tx.txed_count ≤ PACKETS }
    ensures { result ≡ swept_tx tx }
{
    let front = swept(tx);
    Sending {
        txed_count: front.left,
        txed_last_consumed: front.last,
        txed_unconsumable: front.held,
        ..tx
    }
}

// The link's row: the mark's step comes first, and a flag that it sets counts in this ack.
fn acked_row(s: State, slot: u8, time: u64, seq: Seq) -> LinkRow
    requires { Sound s }
    ensures { result ≡ acked_row s slot time seq.0 }
{
    let row = row_of(s, slot).mark_acked(seq);
    if !in_table(s.tx, seq) {
        return row;
    }
    settle_row(row, packet_of(s.tx, seq), slot, time)
}

fn acked_tx(s: State, slot: u8, seq: Seq) -> Sending
    requires { Sound s }
    ensures { result ≡ acked_tx s slot seq.0 }
{
    if !in_table(s.tx, seq) {
        return s.tx;
    }
    settle_tx(s.tx, slot, seq, packet_of(s.tx, seq))
}

// Its own gate judges the number against the next to send.
fn ack_verdict(s: State, slot: u8, time: u64, seq: Seq) -> Result<(), Refusal>
    ensures { result ≡ ack_verdict s slot time seq.0 }
{
    timed_gates(s, slot, time)?;
    refuse_unless(seq.is_near(s.tx.tx_seq), Refusal::Far)
}

pub fn ack(s: State, slot: u8, time: u64, seq: Seq) -> Changed
    ensures value { result ≡ ack_of s slot time seq.0 }
    ensures outcome_value { outcome_told result.outcome ≡ told_by (ack_verdict s slot time seq.0) [] }
{
    match ack_verdict(s, slot, time, seq) {
        Err(e) => Changed::refused(e, s),
        Ok(()) => {
            let row = acked_row(s, slot, time, seq);
            Changed::done(State {
                tx: sweep(acked_tx(s, slot, seq)),
                time,
                ..with_row(s, slot, row)
            })
        }
    }
}
