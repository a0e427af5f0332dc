// Resending a queued packet over another link.
ghost use Rattle.std.specs.Prelude.{◌≡◌, [], ◌∷◌};
ghost use Rattle.refusal.specs.Answers.{told_by};
ghost use Rattle.msg.specs.Reliable.{kind_of, count_of};
ghost use Rattle.engine.specs.Table.{looked_at};
ghost use Rattle.engine.specs.Resending.{last_link, resend_verdict, resent_state, resend_told, resend_of};

use crate::gates::timed_gates;
use crate::packets::is_queued;
use crate::queue::requeue;
use crate::rows::{row_of, with_row};
use crate::state::{InFlight, SentReliableStatus, State};
use crate::table::{in_table, packet_of, with_packet};
use msg::ReliableMsg;
use refusal::{Refusal, refuse_unless};
use seq::Seq;

#[derive(Clone, Copy)]
pub struct ResendResult {
    pub answer: Result<(ReliableMsg, u32), Refusal>,
    pub state: State,
}

// The identity that a packet was last sent on. No Option: the definition that resend's promise cites says 0 of a Received one.
pub fn last_link(status: SentReliableStatus) -> u64
    ensures { result ≡ last_link status }
{
    match status {
        SentReliableStatus::Sent(flight) => flight.link,
        SentReliableStatus::Received => 0,
        SentReliableStatus::ResendQueued { sent_link } => sent_link,
    }
}

fn resend_verdict(s: State, slot: u8, time: u64, seq: Seq) -> Result<(), Refusal>
    ensures { result ≡ resend_verdict s slot time seq.0 }
{
    timed_gates(s, slot, time)?;
    let status = packet_of(s.tx, seq).status;
    let queued = in_table(s.tx, seq) && is_queued(status);
    refuse_unless(queued, Refusal::NotQueued)?;
    let other = last_link(status) != row_of(s, slot).link_id;
    refuse_unless(other, Refusal::SameIdentity)
}

fn resent_state(s: State, slot: u8, time: u64, seq: Seq) -> State
    requires { resend_verdict s slot time seq.0 ≡ Ok tt }
    ensures { result ≡ resent_state s slot time seq.0 }
{
    let row = row_of(s, slot);
    let tx = s.tx;
    let p = packet_of(tx, seq);
    let len = p.len;
    let flight = InFlight::new(time, slot, row.link_id, true);
    let next = p.with_status(SentReliableStatus::Sent(flight));
    let marked = row.mark_resent(seq);
    State {
        tx: requeue(with_packet(tx, seq, next)),
        time,
        ..with_row(s, slot, marked.with_unacked(row.txed_unacked_data + len))
    }
}

// Puts a queued packet on another link.
pub fn resend(s: State, slot: u8, time: u64, seq: Seq) -> ResendResult
    ensures value { result ≡ resend_of s slot time seq.0 }
    ensures answer_value { resend_told result.answer ≡ told_by (resend_verdict s slot time seq.0) (kind_of (looked_at s.tx seq.0).msg ∷ count_of (looked_at s.tx seq.0).msg ∷ (looked_at s.tx seq.0).len ∷ []) }
{
    match resend_verdict(s, slot, time, seq) {
        Err(e) => ResendResult {
            answer: Err(e),
            state: s,
        },
        Ok(()) => {
            let p = packet_of(s.tx, seq);
            ResendResult {
                answer: Ok((p.msg, p.len)),
                state: resent_state(s, slot, time, seq),
            }
        }
    }
}
