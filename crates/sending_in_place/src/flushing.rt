// Flushing a link.
ghost use Rattle.std.specs.Prelude.{◌≡◌, ◌≤◌, length};
ghost use Rattle.engine.specs.Answer.{outcome_told};
ghost use Rattle.engine.specs.Flushing.{flushed_state, flush_of};
ghost use Rattle.engine.specs.Sizes.{PACKETS};
ghost use Rattle.words.specs.Layout.{WORDS};
ghost use Rattle.words.specs.Meaning.{state_of};
ghost use Rattle.words.specs.Ready.{Ready, Left};

use crate::gates::timed_verdict;
use crate::table::change_packets;
use engine::flushing::flush_packet;
use refusal::Refusal;
use words::clock::put_time;
use words::layout::WORDS;

fn put_flushed(words: &mut [u64; WORDS], slot: u8, time: u64)
    requires { (state_of words.old).tx.txed_count ≤ PACKETS }
    ensures { state_of words.new ≡ flushed_state (state_of words.old) slot time }
{
    change_packets(words, |p| flush_packet(p, slot, time));
    put_time(words, time);
}

pub fn flush(words: &mut [u64; WORDS], slot: u8, time: u64) -> Result<(), Refusal>
    requires { Ready words.old }
    ensures value { result ≡ (flush_of (state_of words.old) slot time).outcome }
    ensures words_after { state_of words.new ≡ (flush_of (state_of words.old) slot time).state }
    ensures left { Left (outcome_told result).number words.old words.new }
{
    timed_verdict(words, slot, time)?;
    put_flushed(words, slot, time);
    Ok(())
}
