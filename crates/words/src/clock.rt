// The last accepted time, and whether the reader is open.
ghost use Rattle.std.specs.Prelude.{◌≡◌, length};
ghost use Rattle.engine.specs.Fields.{with_time, with_reader};
ghost use Rattle.words.specs.Layout.{WORDS};
ghost use Rattle.words.specs.Meaning.{state_of};

use crate::bits::{flag, is_set};
use crate::layout::{READER, TIME, WORDS};

// Public, and no crate but this one calls it: it takes any run of so many words, as it did before they had a type.
pub fn time(words: &[u64]) -> u64
    requires { length words.now ≡ WORDS }
    ensures { result ≡ (state_of words.now).time }
{
    words[TIME]
}

pub fn put_time(words: &mut [u64; WORDS], time: u64)
    ensures { state_of words.new ≡ with_time (state_of words.old) time }
{
    words[TIME] = time;
}

pub fn read_open(words: &[u64; WORDS]) -> bool
    ensures { result ≡ (state_of words.now).read_open }
{
    is_set(words[READER])
}

pub fn put_read_open(words: &mut [u64; WORDS], reads: bool)
    ensures { state_of words.new ≡ with_reader (state_of words.old) reads }
{
    words[READER] = flag(reads);
}
