// The waiting acks of a slot, and the resend queue: numbers one a word.
ghost use Rattle.std.specs.Prelude.{◌≡◌, ◌++◌, ◌<◌, length, get_or, set, drop};
ghost use Rattle.seq.specs.Numbers.{seq_of};
ghost use Rattle.link.specs.Acks.{shifted};
ghost use Rattle.link.specs.Fields.{with_acks};
ghost use Rattle.engine.specs.Sound.{row_at};
ghost use Rattle.engine.specs.Fields.{with_row, with_tx, with_queue};
ghost use Rattle.words.specs.Layout.{WORDS};
ghost use Rattle.words.specs.Meaning.{state_of};

use crate::bits::seq_word;
use crate::layout::{ACKS, ACKS_START, QUEUE, WORDS};
use seq::Seq;

// A word of a run.
fn write_word(part: &mut [u64], i: usize, seq: Seq)
    requires { i < length part.old }
    ensures { part.new ≡ set part.old i seq.0 }
{
    part[i] = u64::from(seq.0);
}

// The first of a slot's acks.
pub fn first_ack(words: &[u64; WORDS], slot: usize) -> Seq
    requires { slot < 8 }
    ensures { result ≡ get_or (row_at (state_of words.now) slot).tx_ack_queue 0 (seq_of 0) }
{
    seq_word(words[ACKS_START + slot * ACKS])
}

// A number in a place of a slot's acks.
pub fn put_ack(words: &mut [u64; WORDS], slot: usize, i: usize, seq: Seq)
    requires { (slot < 8) × (i < 64) }
    ensures { state_of words.new ≡ with_row (state_of words.old) slot (with_acks (row_at (state_of words.old) slot) (set (row_at (state_of words.old) slot).tx_ack_queue i seq) (row_at (state_of words.old) slot).ack_count) }
{
    let start = ACKS_START + slot * ACKS;
    let end = start + ACKS;
    write_word(&mut words[start..end], i, seq);
}

// Every number one place to the front: the first is gone, and the last stands twice.
fn shift(part: &mut [u64])
    requires { length part.old ≡ 64 }
    ensures { part.new ≡ drop 1 part.old ++ drop 63 part.old }
{
    part.copy_within(1.., 0);
}

// A slot's acks without the first.
pub fn shift_acks(words: &mut [u64; WORDS], slot: usize)
    requires { slot < 8 }
    ensures { state_of words.new ≡ with_row (state_of words.old) slot (with_acks (row_at (state_of words.old) slot) (shifted (row_at (state_of words.old) slot).tx_ack_queue) (row_at (state_of words.old) slot).ack_count) }
{
    let start = ACKS_START + slot * ACKS;
    let end = start + ACKS;
    shift(&mut words[start..end]);
}

// What stands in a place of the resend queue.
pub fn queued_at(words: &[u64; WORDS], i: usize) -> Seq
    requires { i < 64 }
    ensures { result ≡ get_or (state_of words.now).tx.resend_queue i (seq_of 0) }
{
    seq_word(words[QUEUE + i])
}

// A number in a place of the resend queue.
pub fn put_queued(words: &mut [u64; WORDS], i: usize, seq: Seq)
    requires { i < 64 }
    ensures { state_of words.new ≡ with_tx (state_of words.old) (with_queue (state_of words.old).tx (set (state_of words.old).tx.resend_queue i seq) (state_of words.old).tx.resend_count) }
{
    write_word(&mut words[QUEUE..WORDS], i, seq);
}
