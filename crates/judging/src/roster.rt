// Who lives in which slot, by the first two words of each row.
ghost use Rattle.std.specs.Prelude.{◌≡◌, ◌<◌, length};
ghost use Rattle.engine.specs.Roster.{roster_of, lives_in, lives_before};
ghost use Rattle.engine.specs.Found.{distinct_below};
ghost use Rattle.engine.specs.Sound.{row_at};
ghost use Rattle.words.specs.Layout.{WORDS};
ghost use Rattle.words.specs.Meaning.{state_of};

use engine::SLOTS;
use words::layout::{ROW, ROWS, WORDS};

fn is_live(words: &[u64; WORDS], slot: usize) -> bool
    requires { slot < 8 }
    ensures { result ≡ (row_at (state_of words.now) slot).live }
{
    words[ROWS + slot * ROW] != 0
}

fn id_of(words: &[u64; WORDS], slot: usize) -> u64
    requires { slot < 8 }
    ensures { result ≡ (row_at (state_of words.now) slot).link_id }
{
    words[ROWS + slot * ROW + 1]
}

// Whether a slot holds a live link with the identity.
pub(crate) fn lives_in(words: &[u64; WORDS], slot: usize, id: u64) -> bool
    ensures { result ≡ lives_in (roster_of (state_of words.now).links) slot id }
{
    if SLOTS <= slot {
        return false;
    }
    if !is_live(words, slot) {
        return false;
    }
    id_of(words, slot) == id
}

// Whether one of the first n slots holds a live link with the identity.
fn lives_before(words: &[u64; WORDS], n: usize, id: u64) -> bool
    ensures { result ≡ lives_before (roster_of (state_of words.now).links) n id }
{
    for slot in (0..n).rev() {
        if lives_in(words, slot, id) {
            return true;
        }
    }
    false
}

// No identity lives twice: nobody below a live slot has its identity.
pub(crate) fn distinct(words: &[u64; WORDS]) -> bool
    ensures { result ≡ distinct_below (roster_of (state_of words.now).links) 8 }
{
    for slot in (0..SLOTS).rev() {
        if is_live(words, slot) {
            if lives_before(words, slot, id_of(words, slot)) {
                return false;
            }
        }
    }
    true
}
