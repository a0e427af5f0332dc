// The refusals that many calls share.
ghost use Rattle.std.specs.Prelude.{◌≡◌};
ghost use Rattle.engine.specs.Gates.{slot_verdict, timed_verdict};

use crate::rows::{slot_ok, time_ok};
use crate::sound::is_sound;
use crate::state::State;
use refusal::{Refusal, refuse_unless};

// The refusals of a call that is given a state and a slot.
pub(crate) fn slot_verdict(s: State, slot: u8) -> Result<(), Refusal>
    ensures { result ≡ slot_verdict s slot }
{
    refuse_unless(is_sound(s), Refusal::Unsound)?;
    refuse_unless(slot_ok(s, slot), Refusal::Slot)
}

// The refusals of a call that is given a state, a slot and a time, before those of its own.
pub(crate) fn timed_gates(s: State, slot: u8, time: u64) -> Result<(), Refusal>
    ensures { result ≡ timed_verdict s slot time (Ok tt) }
{
    refuse_unless(is_sound(s), Refusal::Unsound)?;
    refuse_unless(time_ok(s, time), Refusal::Time)?;
    refuse_unless(slot_ok(s, slot), Refusal::Slot)
}

// The same, with what the call's own gates say, for the plain changes of a row (links).
pub(crate) fn timed_verdict(
    s: State,
    slot: u8,
    time: u64,
    rest: Result<(), Refusal>,
) -> Result<(), Refusal>
    ensures { result ≡ timed_verdict s slot time rest }
{
    timed_gates(s, slot, time)?;
    rest
}
