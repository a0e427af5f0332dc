// Showing and taking the oldest ready message.
ghost use Rattle.std.specs.Prelude.{◌≡◌, length};
ghost use Rattle.engine.specs.HandingOut.{showing_of, hand_out_told, take_of, take_records};
ghost use Rattle.engine.specs.Stores.{cell_start};
ghost use Rattle.engine.specs.Fields.{with_rx};
ghost use Rattle.words.specs.Layout.{WORDS};
ghost use Rattle.words.specs.Meaning.{state_of};
ghost use Rattle.words.specs.Ready.{Ready, Left};
ghost use Rattle.receiving_in_place.specs.Moves.{taken_moves};
ghost use Rattle.receiving_in_place.specs.ReadyWith.{ReadyWith};

use engine::handing_out::{oldest_ready, ready_bytes, take_message};
use engine::receiving::lengths_ok;
use engine::ring::cell_at;
use engine::totals::{MAX_TOTAL, sum_fits};
use engine::{DATA_BYTES, HandOut, Held, Receiving};
use refusal::{Refusal, refuse_unless};
use seq::Seq;
use words::layout::WORDS;
use words::receiving::{put_rx_oldest, put_rxed_reliable_consumed, put_rxed_reliable_size, rx_of};

// What is shown: the message, its number and the length of its data, or why there is nothing to show.
pub fn showing(words: &[u64; WORDS], store: usize, records: &[u64]) -> HandOut
    requires { ReadyWith words.now records.now }
    ensures { result ≡ showing_of (state_of words.now) store records.now }
{
    let rx = rx_of(words);
    refuse_unless(lengths_ok(rx, store, records.len()), Refusal::StoreLength)?;
    let held = oldest_ready(rx, records);
    let seq = rx.rx_oldest;
    match held {
        None => Err(Refusal::Nothing),
        Some((msg, len)) => Ok((msg, seq, len)),
    }
}

// Where a number's bytes start in the received store.
fn start_of(words: &[u64; WORDS], seq: Seq) -> usize
    requires { Ready words.now }
    ensures { result ≡ cell_start (state_of words.now).rx.cells seq.0 }
{
    let rx = rx_of(words);
    cell_at(rx.cells, seq) * DATA_BYTES
}

// .. of any run of so many words, since it is public, and no crate calls it.
pub fn shown_start(words: &[u64], seq: Seq) -> usize
    requires { Ready words.now }
    ensures { result ≡ cell_start (state_of words.now).rx.cells seq.0 }
{
    match words.as_array::<WORDS>() {
        Some(words) => start_of(words, seq),
        None => 0,
    }
}

// What a taken message moves of the receiving half.
fn put_taken(words: &mut [u64; WORDS], rx: Receiving)
    ensures { state_of words.new ≡ with_rx (state_of words.old) (taken_moves (state_of words.old).rx rx) }
{
    let oldest = rx.rx_oldest;
    put_rx_oldest(words, oldest);
    put_rxed_reliable_size(words, rx.rxed_reliable_size);
    put_rxed_reliable_consumed(words, rx.rxed_reliable_consumed);
}

// Takes the oldest ready message, and empties its record.
pub fn take(words: &mut [u64; WORDS], records: &mut [u64]) -> HandOut
    requires { ReadyWith words.old records.old }
    ensures value { result ≡ (take_of (state_of words.old) records.old).answer }
    ensures words_after { state_of words.new ≡ (take_of (state_of words.old) records.old).state }
    ensures records_after { records.new ≡ take_records (state_of words.old) records.old }
    ensures left { Left (hand_out_told result).number words.old words.new }
{
    let rx = rx_of(words);
    refuse_unless(records.len() == rx.cells as usize, Refusal::StoreLength)?;
    let held = oldest_ready(rx, records);
    let bytes = ready_bytes(held);
    let fits = sum_fits(rx.rxed_reliable_consumed, bytes as usize, MAX_TOTAL);
    refuse_unless(fits, Refusal::Total)?;
    let seq = rx.rx_oldest;
    match held {
        None => Err(Refusal::Nothing),
        Some((msg, len)) => {
            let next = take_message(rx, records, bytes);
            put_taken(words, next);
            Ok((msg, seq, len))
        }
    }
}
