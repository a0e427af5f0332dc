// Single words.
ghost use Rattle.std.specs.Prelude.{◌≡◌};
ghost use Rattle.refusal.specs.Answers.{flag};
ghost use Rattle.words.specs.Meaning.{half, seq_word, is_set};

use seq::Seq;

// A number of 32 bits: the word's lower half.
pub(crate) fn half(word: u64) -> u32
    ensures { result ≡ half word }
{
    (word % 0x1_0000_0000) as u32
}

pub(crate) fn seq_word(word: u64) -> Seq
    ensures { result ≡ seq_word word }
{
    Seq(half(word))
}

// A flag: set by any word but 0, and written as 1.
pub fn is_set(word: u64) -> bool
    ensures { result ≡ is_set word }
{
    word != 0
}

pub fn flag(set: bool) -> u64
    ensures { result ≡ flag set }
{
    u64::from(set)
}
