// Confirmation deadlines (request [1] of document 02): when to give up on a link that is silent about its packets.
ghost use Rattle.std.specs.Prelude.{◌≡◌, ◌≤◌, true};
ghost use Rattle.refusal.specs.Answers.{told_by};
ghost use Rattle.link.specs.Sizes.{MAX_TIME};
ghost use Rattle.link.specs.Timeout.{timeout_within};
ghost use Rattle.engine.specs.Packets.{packets};
ghost use Rattle.engine.specs.Sizes.{PACKETS};
ghost use Rattle.engine.specs.Deadlines.{in_flight, first_sent, was_flushed, definitely_sent, deadline_of, named_by, named_values, confirm_timeout_verdict, confirm_timeout_told, earliest_confirm_timeout_of};

use crate::packets::is_sent;
use crate::rows::row_of;
use crate::sound::is_sound;
use crate::state::{InFlight, Sending, SentReliableStatus, State};
use crate::table::InOrder;
use link::AckTimeout;
use refusal::{Refusal, refuse_unless};

pub type ConfirmTimeout = Result<Option<(u8, bool, u64)>, Refusal>;

// Public so that `laws` can name it.
pub fn in_flight(status: SentReliableStatus) -> Option<InFlight>
    ensures { result ≡ in_flight status }
{
    match status {
        SentReliableStatus::Sent(flight) => Some(flight),
        SentReliableStatus::Received | SentReliableStatus::ResendQueued { .. } => None,
    }
}

// The first packet in table order that is Sent.
fn first_sent(tx: Sending) -> Option<InFlight>
    requires { tx.txed_count ≤ PACKETS }
    ensures { result ≡ first_sent (packets tx) }
{
    let first = InOrder::of(&tx).find(|p| is_sent(p.status))?;
    in_flight(first.status)
}

pub fn was_flushed(flushed: Option<u64>) -> bool
    ensures { result ≡ was_flushed flushed }
{
    flushed.is_some()
}

// The flush time, or else the send time.
pub fn definitely_sent(flight: InFlight) -> u64
    ensures { result ≡ definitely_sent flight }
{
    flight.flushed.unwrap_or(flight.sent)
}

fn deadline(s: State, flight: InFlight, timeout: AckTimeout, unreliable: bool) -> u64
    requires { (definitely_sent flight ≤ MAX_TIME) × (timeout_within timeout ≡ true) }
    ensures { result ≡ deadline_of s flight timeout unreliable }
{
    let roundtrip = row_of(s, flight.slot).roundtrip;
    let wait = timeout.duration(roundtrip, flight.resent, unreliable);
    definitely_sent(flight) + wait
}

fn confirm_timeout_verdict(s: State, timeout: AckTimeout) -> Result<(), Refusal>
    ensures { result ≡ confirm_timeout_verdict s timeout }
{
    refuse_unless(is_sound(s), Refusal::Unsound)?;
    refuse_unless(timeout.is_within(), Refusal::Setting)
}

// What is named in a state that passes.
fn named(s: State, timeout: AckTimeout, unreliable: bool) -> ConfirmTimeout
    requires { confirm_timeout_verdict s timeout ≡ Ok tt }
    ensures { result ≡ named_by (first_sent (packets s.tx)) s timeout unreliable }
{
    let Some(flight) = first_sent(s.tx) else {
        return Ok(None);
    };
    let at = deadline(s, flight, timeout, unreliable);
    Ok(Some((flight.slot, was_flushed(flight.flushed), at)))
}

// The oldest packet that is Sent, and until when its acknowledgement is waited for. The host says whether the round trip of
// the packet's link is unreliable.
pub fn earliest_confirm_timeout(s: State, timeout: AckTimeout, unreliable: bool) -> ConfirmTimeout
    ensures value { result ≡ earliest_confirm_timeout_of s timeout unreliable }
    ensures result_value { confirm_timeout_told result ≡ told_by (confirm_timeout_verdict s timeout) (named_values (first_sent (packets s.tx)) s timeout unreliable) }
{
    confirm_timeout_verdict(s, timeout)?;
    named(s, timeout, unreliable)
}
