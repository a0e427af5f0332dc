// The reader and the waiting acks.
ghost use Rattle.std.specs.Prelude.{◌≡◌};
ghost use Rattle.std.proofs.lemmas.List.Edits.{sets};
ghost use Rattle.engine.specs.Answer.{outcome_told};
ghost use Rattle.engine.specs.Closing.{close_of};
ghost use Rattle.engine.specs.HandingOut.{take_ack_told, take_ack_of, due_told, due_of};
ghost use Rattle.words.specs.Meaning.{state_of};
ghost use Rattle.words.specs.Ready.{Left};

use crate::answers::{UNSOUND, tell, tell_ack, tell_due};
use judging::{as_mut_sound, as_sound};
use links_in_place::{acks, reader};

// Takes the oldest ack that waits on a link; the value is its number.
#[unsafe(no_mangle)]
pub extern "C" fn fk_take_ack(words: &mut [u64], slot: u8, values: &mut [u64; 3]) -> u64
    ensures value { result ≡ (take_ack_told (take_ack_of (state_of words.old) slot).answer).number }
    ensures words_after { state_of words.new ≡ (take_ack_of (state_of words.old) slot).state }
    ensures values_after { values.new ≡ sets values.old 0 (take_ack_told (take_ack_of (state_of words.old) slot).answer).values }
    ensures left { Left result words.old words.new }
{
    let Some(words) = as_mut_sound(words) else {
        return UNSOUND;
    };
    tell_ack(acks::take_ack(words, slot), values)
}

#[unsafe(no_mangle)]
pub extern "C" fn fk_close_reader(words: &mut [u64]) -> u64
    ensures value { result ≡ (outcome_told (close_of (state_of words.old)).outcome).number }
    ensures words_after { state_of words.new ≡ (close_of (state_of words.old)).state }
    ensures left { Left result words.old words.new }
{
    let Some(words) = as_mut_sound(words) else {
        return UNSOUND;
    };
    tell(reader::close_reader(words))
}

// Whether a Consumed is due; the value is 1 or 0.
#[unsafe(no_mangle)]
pub extern "C" fn fk_is_consume_ack_required(words: &[u64], values: &mut [u64; 3]) -> u64
    ensures value { result ≡ (due_told (due_of (state_of words.now))).number }
    ensures values_after { values.new ≡ sets values.old 0 (due_told (due_of (state_of words.now))).values }
{
    let Some(words) = as_sound(words) else {
        return UNSOUND;
    };
    tell_due(reader::is_consume_ack_required(words), values)
}
