// Unconfirming a link, and removing one.
ghost use Rattle.std.specs.Prelude.{◌≡◌, ◌≤◌, []};
ghost use Rattle.refusal.specs.Answers.{told_by};
ghost use Rattle.engine.specs.Answer.{outcome_told};
ghost use Rattle.engine.specs.Gates.{slot_verdict};
ghost use Rattle.engine.specs.Unconfirming.{unconfirmed_packet, unconfirmed_state, removed_state, unconfirm_of, remove_of};
ghost use Rattle.engine.specs.Sizes.{PACKETS};

use crate::answer::Changed;
use crate::gates::slot_verdict;
use crate::queue::requeue;
use crate::rows::{row_of, with_row};
use crate::state::{SentReliable, SentReliableStatus, State};
use crate::table::with_each;
use link::LinkRow;

// A packet Sent over the slot becomes ResendQueued, and remembers the identity.
pub fn unconfirm_packet(p: SentReliable, slot: u8) -> SentReliable
    ensures { result ≡ unconfirmed_packet slot p }
{
    p.restatus(
        slot,
        |flight| SentReliableStatus::ResendQueued {
            sent_link: flight.link,
        },
    )
}

fn unconfirmed_state(s: State, slot: u8) -> State
    requires { s.tx.txed_count ≤ PACKETS }
    ensures { result ≡ unconfirmed_state s slot }
{
    let row = row_of(s, slot).unconfirm();
    let tx = with_each(s.tx, |p| unconfirm_packet(p, slot));
    State {
        tx: requeue(tx),
        ..with_row(s, slot, row)
    }
}

pub fn unconfirm(s: State, slot: u8) -> Changed
    ensures value { result ≡ unconfirm_of s slot }
    ensures outcome_value { outcome_told result.outcome ≡ told_by (slot_verdict s slot) [] }
{
    match slot_verdict(s, slot) {
        Err(e) => Changed::refused(e, s),
        Ok(()) => Changed::done(unconfirmed_state(s, slot)),
    }
}

fn removed_state(s: State, slot: u8) -> State
    requires { s.tx.txed_count ≤ PACKETS }
    ensures { result ≡ removed_state s slot }
{
    let alone = unconfirmed_state(s, slot);
    with_row(alone, slot, LinkRow::empty())
}

// Removing unconfirms, then empties the slot.
pub fn remove(s: State, slot: u8) -> Changed
    ensures value { result ≡ remove_of s slot }
    ensures outcome_value { outcome_told result.outcome ≡ told_by (slot_verdict s slot) [] }
{
    match slot_verdict(s, slot) {
        Err(e) => Changed::refused(e, s),
        Ok(()) => Changed::done(removed_state(s, slot)),
    }
}
