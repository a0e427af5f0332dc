// One pass over the packet table gathers what Sound asks of it.
ghost use Rattle.std.specs.Prelude.{◌≡◌, ◌≤◌};
ghost use Rattle.engine.specs.Packets.{is_data, is_sent, is_received, is_queued};
ghost use Rattle.engine.specs.Tally.{length_ok, flushed_ok, status_ok, packet_ok, weighed, tally_of};
ghost use Rattle.engine.specs.Sizes.{PACKETS};

use crate::roster::Roster;
use crate::sizes::{DATA_BYTES, PACKETS, SLOT_END, SLOTS};
use crate::state::{Sending, SentReliable, SentReliableStatus};
use crate::table::InOrder;
use msg::{LinkMsg, ReliableMsg};
use seq::Seq;

// What a pass has found: whether all was well, and the sums. No Result: a pass over an unsound table has its sums too, and tally_of
// of specs/ speaks of both.
#[derive(Clone, Copy)]
pub struct Tally {
    pub ok: bool,
    pub on: [u32; SLOTS],
    pub unacked: u32,
    pub unconsumable: u32,
    pub queued: usize,
}

pub fn is_data(msg: ReliableMsg) -> bool
    ensures { result ≡ is_data msg }
{
    msg.kind() == LinkMsg::MSG_DATA
}

// Whether a message may have a length: only Data has bytes, and at most 1,024.
pub fn length_ok(msg: ReliableMsg, len: usize) -> bool
    ensures { result ≡ length_ok msg len }
{
    len == 0 || len <= DATA_BYTES && is_data(msg)
}

pub fn is_sent(status: SentReliableStatus) -> bool
    ensures { result ≡ is_sent status }
{
    matches!(status, SentReliableStatus::Sent(_))
}

pub fn is_received(status: SentReliableStatus) -> bool
    ensures { result ≡ is_received status }
{
    matches!(status, SentReliableStatus::Received)
}

pub fn is_queued(status: SentReliableStatus) -> bool
    ensures { result ≡ is_queued status }
{
    matches!(status, SentReliableStatus::ResendQueued { .. })
}

fn flushed_ok(flushed: Option<u64>, time: u64) -> bool
    ensures { result ≡ flushed_ok flushed time }
{
    flushed.is_none_or(|at| at <= time)
}

// Whether a packet's status is well; `next` is the number that the resend queue has next.
fn status_ok(status: SentReliableStatus, seq: Seq, next: Seq, roster: Roster, time: u64) -> bool
    ensures { result ≡ status_ok status seq next roster time }
{
    match status {
        SentReliableStatus::Sent(flight) => {
            roster.lives_in(usize::from(flight.slot), flight.link)
                && flight.sent <= time
                && flushed_ok(flight.flushed, time)
        }
        SentReliableStatus::Received => true,
        SentReliableStatus::ResendQueued { .. } => next == seq,
    }
}

pub fn packet_ok(p: SentReliable, n: Seq, next: Seq, roster: Roster, time: u64) -> bool
    ensures { result ≡ packet_ok p n next roster time }
{
    p.seq == n && length_ok(p.msg, p.len as usize) && status_ok(p.status, p.seq, next, roster, time)
}

// The tally with one packet more. Sums go round at 2^32, which a table that is well cannot reach.
pub fn weigh(t: Tally, status: SentReliableStatus, len: u32, ok: bool) -> Tally
    ensures { result ≡ weighed status t len ok }
{
    let mut out = Tally {
        ok: t.ok && ok,
        ..t
    };
    match status {
        SentReliableStatus::Sent(flight) => {
            let j = usize::from(flight.slot % SLOT_END);
            out.on[j] = t.on[j].wrapping_add(len);
            out.unacked = t.unacked.wrapping_add(len);
        }
        SentReliableStatus::Received => out.unconsumable = t.unconsumable.wrapping_add(len),
        SentReliableStatus::ResendQueued { .. } => {
            out.unacked = t.unacked.wrapping_add(len);
            out.queued = t.queued.wrapping_add(1);
        }
    }
    out
}

// The whole table's tally, from its first packet on.
pub fn tallied(tx: Sending, roster: Roster, time: u64) -> Tally
    requires { tx.txed_count ≤ PACKETS }
    ensures { result ≡ tally_of tx roster time }
{
    let mut t = Tally {
        ok: true,
        on: [0; SLOTS],
        unacked: 0,
        unconsumable: 0,
        queued: 0,
    };
    let mut n = tx.tx_seq.sub(tx.txed_count as u32);
    for p in InOrder::of(&tx) {
        let next = tx.resend_queue[t.queued % PACKETS];
        t = weigh(t, p.status, p.len, packet_ok(p, n, next, roster, time));
        n = n.add(1);
    }
    t
}
