// The slow links.
ghost use Rattle.std.specs.Prelude.{◌≡◌, ◌∷◌, []};
ghost use Rattle.std.proofs.lemmas.List.Edits.{sets};
ghost use Rattle.engine.specs.Slowness.{slow_of};
ghost use Rattle.words.specs.Meaning.{state_of};
ghost use Rattle.door.specs.Slowness.{eight_of};

use engine::SlowLinks;
use links_in_place::slowness::slow;
use words::layout::WORDS;

// Words of another length say eight empty rows, of which none is listed.
fn slow_said(words: &[u64]) -> SlowLinks
    ensures { result ≡ slow_of (state_of words.now).links }
{
    let Some(words) = words.as_array::<WORDS>() else {
        return SlowLinks {
            slots: [0; 8],
            count: 0,
        };
    };
    slow(words)
}

// Lists the slow links, lowest slot first: their slots stand in the first places, with 0 past them, and the value is how many they are.
// There is no refusal, since eight rows are there whatever the words are.
#[unsafe(no_mangle)]
pub extern "C" fn fk_slow(words: &[u64], slots: &mut [u64; 8], values: &mut [u64; 3]) -> u64
    ensures value { result ≡ 0 }
    ensures slots_after { slots.new ≡ sets slots.old 0 (eight_of (slow_of (state_of words.now).links).slots) }
    ensures values_after { values.new ≡ sets values.old 0 ((slow_of (state_of words.now).links).count ∷ []) }
{
    let found = slow_said(words);
    *slots = found.slots.map(u64::from);
    values[0] = found.count as u64;
    0
}
