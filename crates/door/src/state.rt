// A state's words: made, and judged.
ghost use Rattle.std.specs.Prelude.{◌≡◌, [], length, replicate};
ghost use Rattle.engine.specs.Decide.{soundb, sound_withb};
ghost use Rattle.engine.specs.Starting.{fresh_state};
ghost use Rattle.engine.specs.Stores.{store_by};
ghost use Rattle.refusal.specs.Answers.{told_by};
ghost use Rattle.words.specs.Meaning.{state_of};
ghost use Rattle.words.specs.Ready.{Left};
ghost use Rattle.door.specs.Fresh.{fresh_gate, state_by};

use crate::answers::{WRONG_LENGTH, refused};
use engine::starting::{empty_records, fresh_verdict};
use links_in_place::fresh::put_fresh;
use seq::Seq;
use words::layout::WORDS;

// Writes the words of a fresh state, and leaves every record empty. Words that are not as many as a state's give 2, as records do.
#[unsafe(no_mangle)]
pub extern "C" fn fk_fresh(
    words: &mut [u64],
    start: u32,
    recv_buffer: u32,
    cells: u32,
    records: &mut [u64],
) -> u64
    ensures value { result ≡ (told_by (fresh_gate recv_buffer cells (length records.old) (length words.old)) []).number }
    ensures words_after { state_of words.new ≡ state_by (fresh_gate recv_buffer cells (length records.old) (length words.old)) (state_of words.old) (fresh_state start recv_buffer cells) }
    ensures records_after { records.new ≡ store_by (fresh_gate recv_buffer cells (length records.old) (length words.old)) records.old (replicate (length records.old) 0) }
    ensures left { Left result words.old words.new }
{
    let verdict = fresh_verdict(recv_buffer, cells, records.len());
    match verdict {
        Err(e) => refused(e),
        Ok(()) => {
            let Some(words) = words.as_mut_array::<WORDS>() else {
                return WRONG_LENGTH;
            };
            empty_records(records);
            put_fresh(words, Seq(start), recv_buffer, cells);
            0
        }
    }
}

// Whether the words are those of a sound state, but for what the records hold.
#[unsafe(no_mangle)]
pub extern "C" fn fk_is_sound(words: &[u64]) -> bool
    ensures { result ≡ soundb (state_of words.now) }
{
    judging::is_sound(words)
}

// .. and sound with these records.
#[unsafe(no_mangle)]
pub extern "C" fn fk_is_sound_with(words: &[u64], records: &[u64]) -> bool
    ensures { result ≡ sound_withb (state_of words.now) records.now }
{
    judging::is_sound_with(words, records)
}
