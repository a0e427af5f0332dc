// The reader, and what it has taken.
ghost use Rattle.std.specs.Prelude.{◌≡◌, cond, ◌/◌};
ghost use Rattle.engine.specs.Closing.{close_of};
ghost use Rattle.engine.specs.HandingOut.{due_of};
ghost use Rattle.words.specs.Meaning.{state_of};
ghost use Rattle.words.specs.Ready.{Ready, Left};
ghost use Rattle.engine.specs.Answer.{outcome_told};

use refusal::Refusal;
use words::clock::{put_read_open, read_open};
use words::layout::WORDS;
use words::receiving::rx_of;

// Closes the reader for good; one that has closed stays so.
pub fn close_reader(words: &mut [u64; WORDS]) -> Result<(), Refusal>
    requires { Ready words.old }
    ensures value { result ≡ (close_of (state_of words.old)).outcome }
    ensures words_after { state_of words.new ≡ (close_of (state_of words.old)).state }
    ensures left { Left (outcome_told result).number words.old words.new }
{
    put_read_open(words, false);
    Ok(())
}

// A Consumed is due above this count: with nobody reading, none need be saved up.
fn due_above(reads: bool, recv_buffer: u32) -> u32
    ensures { result ≡ cond reads (recv_buffer / 10) 0 }
{
    if reads { recv_buffer / 10 } else { 0 }
}

// Whether the other end is to be told what was taken.
pub fn is_consume_ack_required(words: &[u64; WORDS]) -> Result<bool, Refusal>
    requires { Ready words.now }
    ensures { result ≡ due_of (state_of words.now) }
{
    let rx = rx_of(words);
    let above = due_above(read_open(words), rx.recv_buffer);
    let untold = rx.rxed_reliable_consumed;
    Ok(above < untold)
}
