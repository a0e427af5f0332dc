// The plain changes of a row.
ghost use Rattle.std.specs.Prelude.{◌≡◌, ◌≢◌, Ok};
ghost use Rattle.engine.specs.Answer.{outcome_told};
ghost use Rattle.engine.specs.Fields.{with_row, with_time};
ghost use Rattle.engine.specs.Gates.{slot_verdict, timed_verdict};
ghost use Rattle.engine.specs.Links.{confirm_of, block_of, mark_of, ping_of, pong_of};
ghost use Rattle.engine.specs.Sound.{row_at};
ghost use Rattle.link.specs.declared.row.LinkRow.{LinkRow};
ghost use Rattle.words.specs.Encoded.{bare};
ghost use Rattle.words.specs.Meaning.{state_of};
ghost use Rattle.words.specs.Ready.{Ready, Left};
ghost use Rattle.links_in_place.specs.RowsBare.{over};

use link::LinkRow;
use refusal::{Refusal, refuse_unless};
use seq::Seq;
use words::clock::put_time;
use words::gates::{slot_ok, time_ok};
use words::layout::WORDS;
use words::row::{put_row, row_at};

// A change of the row of a slot that holds a link.
fn change<F: FnOnce(LinkRow) -> LinkRow>(
    words: &mut [u64; WORDS],
    slot: u8,
    step: F,
) -> Result<(), Refusal>
    requires ready { Ready words.old }
    requires callable { F.IsAlwaysCallable step }
    ensures value { result ≡ slot_verdict (state_of words.old) slot }
    ensures words_after { result ≡ Ok tt → (row : LinkRow) × F.post step (bare (row_at (state_of words.old) slot)) row × (state_of words.new ≡ with_row (state_of words.old) slot (over (row_at (state_of words.old) slot) row)) }
    ensures left { result ≢ Ok tt → words.new ≡ words.old }
{
    refuse_unless(slot_ok(words, slot), Refusal::Slot)?;
    let j = usize::from(slot);
    let row = step(row_at(words, j));
    put_row(words, j, row);
    Ok(())
}

// .. at a time, which is the last accepted one then.
fn change_at<F: FnOnce(LinkRow) -> LinkRow>(
    words: &mut [u64; WORDS],
    slot: u8,
    time: u64,
    step: F,
) -> Result<(), Refusal>
    requires ready { Ready words.old }
    requires callable { F.IsAlwaysCallable step }
    ensures value { result ≡ timed_verdict (state_of words.old) slot time (Ok tt) }
    ensures words_after { result ≡ Ok tt → (row : LinkRow) × F.post step (bare (row_at (state_of words.old) slot)) row × (state_of words.new ≡ with_time (with_row (state_of words.old) slot (over (row_at (state_of words.old) slot) row)) time) }
    ensures left { result ≢ Ok tt → words.new ≡ words.old }
{
    refuse_unless(time_ok(words, time), Refusal::Time)?;
    change(words, slot, step)?;
    put_time(words, time);
    Ok(())
}

pub fn confirm(words: &mut [u64; WORDS], slot: u8) -> Result<(), Refusal>
    requires { Ready words.old }
    ensures value { result ≡ (confirm_of (state_of words.old) slot).outcome }
    ensures words_after { state_of words.new ≡ (confirm_of (state_of words.old) slot).state }
    ensures left { Left (outcome_told result).number words.old words.new }
{
    change(words, slot, |row| row.confirm())
}

pub fn block(words: &mut [u64; WORDS], slot: u8, blocked: bool) -> Result<(), Refusal>
    requires { Ready words.old }
    ensures value { result ≡ (block_of (state_of words.old) slot blocked).outcome }
    ensures words_after { state_of words.new ≡ (block_of (state_of words.old) slot blocked).state }
    ensures left { Left (outcome_told result).number words.old words.new }
{
    change(words, slot, |row| row.block(blocked))
}

// Sets the limit mark to any number.
pub fn mark(words: &mut [u64; WORDS], slot: u8, seq: Seq) -> Result<(), Refusal>
    requires { Ready words.old }
    ensures value { result ≡ (mark_of (state_of words.old) slot seq).outcome }
    ensures words_after { state_of words.new ≡ (mark_of (state_of words.old) slot seq).state }
    ensures left { Left (outcome_told result).number words.old words.new }
{
    change(words, slot, |row| row.mark(Some(seq)))
}

// Notes that a ping was sent.
pub fn ping(words: &mut [u64; WORDS], slot: u8, time: u64) -> Result<(), Refusal>
    requires { Ready words.old }
    ensures value { result ≡ (ping_of (state_of words.old) slot time).outcome }
    ensures words_after { state_of words.new ≡ (ping_of (state_of words.old) slot time).state }
    ensures left { Left (outcome_told result).number words.old words.new }
{
    change_at(words, slot, time, |row| row.ping(time))
}

// A pong arrived.
pub fn pong(words: &mut [u64; WORDS], slot: u8, time: u64) -> Result<(), Refusal>
    requires { Ready words.old }
    ensures value { result ≡ (pong_of (state_of words.old) slot time).outcome }
    ensures words_after { state_of words.new ≡ (pong_of (state_of words.old) slot time).state }
    ensures left { Left (outcome_told result).number words.old words.new }
{
    change_at(words, slot, time, |row| row.pong(time))
}
