// The tests that every call with a slot or a time makes.
ghost use Rattle.std.specs.Prelude.{◌≡◌, length};
ghost use Rattle.engine.specs.Rows.{slot_ok, time_ok};
ghost use Rattle.words.specs.Layout.{WORDS};
ghost use Rattle.words.specs.Meaning.{state_of};

use crate::bits::is_set;
use crate::clock::time;
use crate::layout::{ROW, ROWS, WORDS};
use engine::SLOTS;
use link::sizes::MAX_TIME;

// Whether a slot holds a link.
pub fn slot_ok(words: &[u64; WORDS], slot: u8) -> bool
    ensures { result ≡ slot_ok (state_of words.now) slot }
{
    let j = usize::from(slot);
    j < SLOTS && is_set(words[ROWS + j * ROW])
}

// Whether a time is neither before the last accepted one nor too late.
pub fn time_ok(words: &[u64; WORDS], at: u64) -> bool
    ensures { result ≡ time_ok (state_of words.now) at }
{
    time(words) <= at && at <= MAX_TIME
}
