// The refusals that many calls share. The first, of a state that is not sound, is none here: the words were judged before.
ghost use Rattle.std.specs.Prelude.{◌≡◌, Ok};
ghost use Rattle.engine.specs.Gates.{slot_verdict, timed_verdict};
ghost use Rattle.words.specs.Meaning.{state_of};
ghost use Rattle.words.specs.Ready.{Ready};

use refusal::{Refusal, refuse_unless};
use words::gates::{slot_ok, time_ok};
use words::layout::WORDS;

// The refusals of a call that is given a slot.
pub(crate) fn slot_verdict(words: &[u64; WORDS], slot: u8) -> Result<(), Refusal>
    requires { Ready words.now }
    ensures { result ≡ slot_verdict (state_of words.now) slot }
{
    refuse_unless(slot_ok(words, slot), Refusal::Slot)
}

// The refusals of a call that is given a slot and a time, before those of its own.
pub(crate) fn timed_verdict(words: &[u64; WORDS], slot: u8, time: u64) -> Result<(), Refusal>
    requires { Ready words.now }
    ensures { result ≡ timed_verdict (state_of words.now) slot time (Ok tt) }
{
    refuse_unless(time_ok(words, time), Refusal::Time)?;
    slot_verdict(words, slot)
}
