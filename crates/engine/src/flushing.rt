// Flushing a link.
ghost use Rattle.std.specs.Prelude.{◌≡◌, ◌≤◌, []};
ghost use Rattle.refusal.specs.Answers.{told_by};
ghost use Rattle.engine.specs.Answer.{outcome_told};
ghost use Rattle.engine.specs.Gates.{timed_verdict};
ghost use Rattle.engine.specs.Flushing.{flushed_packet, flushed_state, flush_of};
ghost use Rattle.engine.specs.Sizes.{PACKETS};

use crate::answer::Changed;
use crate::gates::timed_gates;
use crate::state::{SentReliable, SentReliableStatus, State};
use crate::table::with_each;

// A Sent packet of the slot without a flush time gets the present one.
pub fn flush_packet(p: SentReliable, slot: u8, time: u64) -> SentReliable
    ensures { result ≡ flushed_packet slot time p }
{
    p.restatus(slot, |flight| SentReliableStatus::Sent(flight.flush(time)))
}

fn flushed_state(s: State, slot: u8, time: u64) -> State
    requires { s.tx.txed_count ≤ PACKETS }
    ensures { result ≡ flushed_state s slot time }
{
    let tx = with_each(s.tx, |p| flush_packet(p, slot, time));
    State { tx, time, ..s }
}

pub fn flush(s: State, slot: u8, time: u64) -> Changed
    ensures value { result ≡ flush_of s slot time }
    ensures outcome_value { outcome_told result.outcome ≡ told_by (timed_verdict s slot time (Ok tt)) [] }
{
    match timed_gates(s, slot, time) {
        Err(e) => Changed::refused(e, s),
        Ok(()) => Changed::done(flushed_state(s, slot, time)),
    }
}
