// Unconfirming a link, and removing one.
ghost use Rattle.std.specs.Prelude.{◌≡◌, ◌≤◌, ◌<◌, length};
ghost use Rattle.engine.specs.Answer.{outcome_told};
ghost use Rattle.engine.specs.Sizes.{PACKETS};
ghost use Rattle.engine.specs.Unconfirming.{unconfirmed_state, unconfirm_of, remove_of};
ghost use Rattle.words.specs.Layout.{WORDS};
ghost use Rattle.words.specs.Meaning.{state_of};
ghost use Rattle.words.specs.Ready.{Ready, Left};

use crate::gates::slot_verdict;
use crate::queue::requeue;
use crate::rows::put_empty;
use crate::table::change_packets;
use engine::unconfirming::unconfirm_packet;
use refusal::Refusal;
use words::layout::WORDS;
use words::row::{put_row, row_at};

fn put_unconfirmed(words: &mut [u64; WORDS], slot: u8)
    requires { (slot < 8) × ((state_of words.old).tx.txed_count ≤ PACKETS) }
    ensures { state_of words.new ≡ unconfirmed_state (state_of words.old) slot }
{
    let row = row_at(words, slot as usize).unconfirm();
    change_packets(words, |p| unconfirm_packet(p, slot));
    requeue(words);
    put_row(words, slot as usize, row);
}

pub fn unconfirm(words: &mut [u64; WORDS], slot: u8) -> Result<(), Refusal>
    requires { Ready words.old }
    ensures value { result ≡ (unconfirm_of (state_of words.old) slot).outcome }
    ensures words_after { state_of words.new ≡ (unconfirm_of (state_of words.old) slot).state }
    ensures left { Left (outcome_told result).number words.old words.new }
{
    slot_verdict(words, slot)?;
    put_unconfirmed(words, slot);
    Ok(())
}

// Removing unconfirms, then empties the slot.
pub fn remove(words: &mut [u64; WORDS], slot: u8) -> Result<(), Refusal>
    requires { Ready words.old }
    ensures value { result ≡ (remove_of (state_of words.old) slot).outcome }
    ensures words_after { state_of words.new ≡ (remove_of (state_of words.old) slot).state }
    ensures left { Left (outcome_told result).number words.old words.new }
{
    slot_verdict(words, slot)?;
    put_unconfirmed(words, slot);
    put_empty(words, slot);
    Ok(())
}
