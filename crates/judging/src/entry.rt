// Words taken as those of a sound state: who has them so can call what works in place, and nobody else can.
ghost use Rattle.std.specs.Prelude.{◌≡◌, false, MatchOption};
ghost use Rattle.std.specs.Borrow.{sem, LendsIf, Array, u64};
ghost use Rattle.engine.specs.Decide.{soundb, sound_withb};
ghost use Rattle.words.specs.Meaning.{state_of};
ghost use Rattle.judging.specs.Entry.{Entered, EnteredWith};

use crate::sound;
use crate::sound::{is_sound, is_sound_with};
use words::layout::WORDS;

// The words, where they are those of a sound state, but for what the records hold.
pub fn as_sound(words: &[u64]) -> Option<&[u64; WORDS]>
    ensures { MatchOption result (soundb (state_of words.now) ≡ false) (λ y. Entered y.now words.now) }
{
    if !is_sound(words) {
        return None;
    }
    words.as_array::<WORDS>()
}

// .. and where they are sound with these records.
pub fn as_sound_with<'a>(words: &'a [u64], records: &[u64]) -> Option<&'a [u64; WORDS]>
    ensures { MatchOption result (sound_withb (state_of words.now) records.now ≡ false) (λ y. EnteredWith y.now words.now records.now) }
{
    if !is_sound_with(words, records) {
        return None;
    }
    words.as_array::<WORDS>()
}

// The same of words that are written.
pub fn as_mut_sound(words: &mut [u64]) -> Option<&mut [u64; WORDS]>
    ensures value { MatchOption result (soundb (state_of words.old) ≡ false) (λ y. Entered y.now words.old) }
    ensures* writes_back { sem 𝓛 (LendsIf (Array u64 0) (Array u64 0) words.entry result (λ ws. ws) words.old) }
{
    if !sound::is_sound(words) {
        return None;
    }
    words.as_mut_array::<WORDS>()
}

// .. and where they are sound with these records.
pub fn as_mut_sound_with<'a>(words: &'a mut [u64], records: &[u64]) -> Option<&'a mut [u64; WORDS]>
    ensures value { MatchOption result (sound_withb (state_of words.old) records.now ≡ false) (λ y. EnteredWith y.now words.old records.now) }
    ensures* writes_back { sem 𝓛 (LendsIf (Array u64 0) (Array u64 0) words.entry result (λ ws. ws) words.old) }
{
    if !sound::is_sound_with(words, records) {
        return None;
    }
    words.as_mut_array::<WORDS>()
}
