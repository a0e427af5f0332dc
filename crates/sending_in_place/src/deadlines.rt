// Confirmation deadlines (request [1] of document 02).
ghost use Rattle.std.specs.Prelude.{◌≡◌, true, ◌≤◌, length};
ghost use Rattle.link.specs.Sizes.{MAX_TIME};
ghost use Rattle.link.specs.Timeout.{timeout_within};
ghost use Rattle.engine.specs.Packets.{packets};
ghost use Rattle.engine.specs.Sizes.{PACKETS};
ghost use Rattle.engine.specs.Deadlines.{first_sent, definitely_sent, deadline_of, named_by, earliest_confirm_timeout_of};
ghost use Rattle.words.specs.Layout.{WORDS};
ghost use Rattle.words.specs.Meaning.{state_of};
ghost use Rattle.words.specs.Ready.{Ready};

use crate::rows::row_of;
use crate::table::first_cell;
use engine::deadlines::{definitely_sent, in_flight, was_flushed};
use engine::packets::is_sent;
use engine::ring::next_cell;
use engine::{ConfirmTimeout, InFlight, PACKETS};
use link::AckTimeout;
use refusal::Refusal;
use words::layout::WORDS;
use words::packet::packet_at;
use words::sending::tx_of;

// The first packet in table order that is Sent.
fn first_sent(words: &[u64; WORDS]) -> Option<InFlight>
    requires { (state_of words.now).tx.txed_count ≤ PACKETS }
    ensures { result ≡ first_sent (packets (state_of words.now).tx) }
{
    let tx = tx_of(words);
    let mut at = first_cell(tx);
    for _ in 0..tx.txed_count {
        let p = packet_at(words, at);
        let status = p.status;
        if is_sent(status) {
            return in_flight(status);
        }
        at = next_cell(PACKETS, at);
    }
    None
}

fn deadline(words: &[u64; WORDS], flight: InFlight, timeout: AckTimeout, unreliable: bool) -> u64
    requires { (definitely_sent flight ≤ MAX_TIME) × (timeout_within timeout ≡ true) }
    ensures { result ≡ deadline_of (state_of words.now) flight timeout unreliable }
{
    let roundtrip = row_of(words, flight.slot).roundtrip;
    let wait = timeout.duration(roundtrip, flight.resent, unreliable);
    definitely_sent(flight) + wait
}

// What is named where the settings are within their sizes.
fn named(words: &[u64; WORDS], timeout: AckTimeout, unreliable: bool) -> ConfirmTimeout
    requires { Ready words.now × (timeout_within timeout ≡ true) }
    ensures { result ≡ named_by (first_sent (packets (state_of words.now).tx)) (state_of words.now) timeout unreliable }
{
    let first = first_sent(words);
    match first {
        None => Ok(None),
        Some(flight) => {
            let flushed = flight.flushed;
            let at = deadline(words, flight, timeout, unreliable);
            Ok(Some((flight.slot, was_flushed(flushed), at)))
        }
    }
}

// The oldest packet that is Sent, and until when its acknowledgement is waited for.
pub fn earliest_confirm_timeout(
    words: &[u64; WORDS],
    timeout: AckTimeout,
    unreliable: bool,
) -> ConfirmTimeout
    requires { Ready words.now }
    ensures { result ≡ earliest_confirm_timeout_of (state_of words.now) timeout unreliable }
{
    if timeout.is_within() {
        return named(words, timeout, unreliable);
    }
    Err(Refusal::Setting)
}
