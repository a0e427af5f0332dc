// The receiving half.
ghost use Rattle.std.specs.Prelude.{◌≡◌, length};
ghost use Rattle.engine.specs.Fields.{with_rx, with_numbers, with_bytes, with_end};
ghost use Rattle.words.specs.Layout.{WORDS};
ghost use Rattle.words.specs.Meaning.{state_of};
ghost use Rattle.words.specs.Encoded.{rx_words};

use crate::bits::{half, seq_word};
use crate::layout::{RX, RX_END, WORDS};
use engine::Receiving;
use seq::Seq;

pub fn rx_of(words: &[u64; WORDS]) -> Receiving
    ensures { result ≡ (state_of words.now).rx }
{
    Receiving {
        rx_seq: seq_word(words[RX]),
        rx_oldest: seq_word(words[RX + 1]),
        rxed_reliable_size: half(words[RX + 2]),
        rxed_reliable_consumed: half(words[RX + 3]),
        recv_buffer: half(words[RX + 4]),
        cells: half(words[RX + 5]),
        rx_end: seq_word(words[RX + 6]),
    }
}

fn write_rx(part: &mut [u64], rx: Receiving)
    requires { length part.old ≡ 7 }
    ensures { part.new ≡ rx_words rx }
{
    part.copy_from_slice(&[
        u64::from(rx.rx_seq.0),
        u64::from(rx.rx_oldest.0),
        u64::from(rx.rxed_reliable_size),
        u64::from(rx.rxed_reliable_consumed),
        u64::from(rx.recv_buffer),
        u64::from(rx.cells),
        u64::from(rx.rx_end.0),
    ]);
}

pub fn put_rx(words: &mut [u64; WORDS], rx: Receiving)
    ensures { state_of words.new ≡ with_rx (state_of words.old) rx }
{
    write_rx(&mut words[RX..RX_END], rx);
}

// The next expected and the oldest number.
pub fn put_rx_seq(words: &mut [u64; WORDS], seq: Seq)
    ensures { state_of words.new ≡ with_rx (state_of words.old) (with_numbers (state_of words.old).rx seq (state_of words.old).rx.rx_oldest) }
{
    words[RX] = u64::from(seq.0);
}

pub fn put_rx_oldest(words: &mut [u64; WORDS], seq: Seq)
    ensures { state_of words.new ≡ with_rx (state_of words.old) (with_numbers (state_of words.old).rx (state_of words.old).rx.rx_seq seq) }
{
    words[RX + 1] = u64::from(seq.0);
}

// The untaken bytes, and those taken and untold.
pub fn put_rxed_reliable_size(words: &mut [u64; WORDS], bytes: u32)
    ensures { state_of words.new ≡ with_rx (state_of words.old) (with_bytes (state_of words.old).rx bytes (state_of words.old).rx.rxed_reliable_consumed) }
{
    words[RX + 2] = u64::from(bytes);
}

pub fn put_rxed_reliable_consumed(words: &mut [u64; WORDS], bytes: u32)
    ensures { state_of words.new ≡ with_rx (state_of words.old) (with_bytes (state_of words.old).rx (state_of words.old).rx.rxed_reliable_size bytes) }
{
    words[RX + 3] = u64::from(bytes);
}

// The end of the cells in use.
pub fn put_rx_end(words: &mut [u64; WORDS], seq: Seq)
    ensures { state_of words.new ≡ with_rx (state_of words.old) (with_end (state_of words.old).rx seq) }
{
    words[RX + 6] = u64::from(seq.0);
}
