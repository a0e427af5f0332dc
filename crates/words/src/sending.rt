// The sending half's numbers: all of it but the packets and the resend queue.
ghost use Rattle.std.specs.Prelude.{◌≡◌, length};
ghost use Rattle.engine.specs.Fields.{with_tx, with_next, with_totals, with_ends};
ghost use Rattle.words.specs.Layout.{WORDS};
ghost use Rattle.words.specs.Meaning.{state_of};
ghost use Rattle.words.specs.Encoded.{numbers_of, numbers_words, with_counts};

use crate::bits::{flag, half, is_set, seq_word};
use crate::layout::{TX, TX_END, WORDS};
use seq::Seq;

// By the names of `engine::Sending`.
#[derive(Clone, Copy)]
pub struct SendingNumbers {
    pub tx_seq: Seq,
    pub txed_count: usize,
    pub resend_count: usize,
    pub txed_unacked: u32,
    pub txed_unconsumed: u32,
    pub txed_unconsumable: u32,
    pub txed_last_consumed: Seq,
    pub send_finish_sent: bool,
    pub write_closed: bool,
}

pub fn tx_of(words: &[u64; WORDS]) -> SendingNumbers
    ensures { result ≡ numbers_of (state_of words.now).tx }
{
    SendingNumbers {
        tx_seq: seq_word(words[TX]),
        txed_count: words[TX + 1] as usize,
        resend_count: words[TX + 2] as usize,
        txed_unacked: half(words[TX + 3]),
        txed_unconsumed: half(words[TX + 4]),
        txed_unconsumable: half(words[TX + 5]),
        txed_last_consumed: seq_word(words[TX + 6]),
        send_finish_sent: is_set(words[TX + 7]),
        write_closed: is_set(words[TX + 8]),
    }
}

fn write_tx(part: &mut [u64], tx: SendingNumbers)
    requires { length part.old ≡ 9 }
    ensures { part.new ≡ numbers_words tx }
{
    part.copy_from_slice(&[
        u64::from(tx.tx_seq.0),
        tx.txed_count as u64,
        tx.resend_count as u64,
        u64::from(tx.txed_unacked),
        u64::from(tx.txed_unconsumed),
        u64::from(tx.txed_unconsumable),
        u64::from(tx.txed_last_consumed.0),
        flag(tx.send_finish_sent),
        flag(tx.write_closed),
    ]);
}

pub fn put_tx(words: &mut [u64; WORDS], tx: SendingNumbers)
    ensures { state_of words.new ≡ with_tx (state_of words.old) (with_counts (state_of words.old).tx tx) }
{
    write_tx(&mut words[TX..TX_END], tx);
}

// One function a word, here and in `receiving`: each promises another field of the state, so that one with the word's place as a parameter could not say it plainer.
// The next number.
pub fn put_tx_seq(words: &mut [u64; WORDS], seq: Seq)
    ensures { state_of words.new ≡ with_tx (state_of words.old) (with_next (state_of words.old).tx seq (state_of words.old).tx.txed_packets (state_of words.old).tx.txed_count) }
{
    words[TX] = u64::from(seq.0);
}

// How many packets are in the table.
pub fn put_txed_count(words: &mut [u64; WORDS], n: usize)
    ensures { state_of words.new ≡ with_tx (state_of words.old) (with_next (state_of words.old).tx (state_of words.old).tx.tx_seq (state_of words.old).tx.txed_packets n) }
{
    words[TX + 1] = n as u64;
}

// The unacked, the unconsumed and the unconsumable bytes.
pub fn put_txed_unacked(words: &mut [u64; WORDS], bytes: u32)
    ensures { state_of words.new ≡ with_tx (state_of words.old) (with_totals (state_of words.old).tx bytes (state_of words.old).tx.txed_unconsumed (state_of words.old).tx.txed_unconsumable) }
{
    words[TX + 3] = u64::from(bytes);
}

pub fn put_txed_unconsumed(words: &mut [u64; WORDS], bytes: u32)
    ensures { state_of words.new ≡ with_tx (state_of words.old) (with_totals (state_of words.old).tx (state_of words.old).tx.txed_unacked bytes (state_of words.old).tx.txed_unconsumable) }
{
    words[TX + 4] = u64::from(bytes);
}

pub fn put_txed_unconsumable(words: &mut [u64; WORDS], bytes: u32)
    ensures { state_of words.new ≡ with_tx (state_of words.old) (with_totals (state_of words.old).tx (state_of words.old).tx.txed_unacked (state_of words.old).tx.txed_unconsumed bytes) }
{
    words[TX + 5] = u64::from(bytes);
}

// The last consumed number.
pub fn put_txed_last_consumed(words: &mut [u64; WORDS], seq: Seq)
    ensures { state_of words.new ≡ with_tx (state_of words.old) (with_ends (state_of words.old).tx seq (state_of words.old).tx.send_finish_sent (state_of words.old).tx.write_closed) }
{
    words[TX + 6] = u64::from(seq.0);
}

// Whether sending has ended, and whether the other end's reader has closed.
pub fn put_send_finish_sent(words: &mut [u64; WORDS], set: bool)
    ensures { state_of words.new ≡ with_tx (state_of words.old) (with_ends (state_of words.old).tx (state_of words.old).tx.txed_last_consumed set (state_of words.old).tx.write_closed) }
{
    words[TX + 7] = flag(set);
}

// .. in any run of so many words, since it is public, and no crate calls it.
pub fn put_write_closed(words: &mut [u64], set: bool)
    requires { length words.old ≡ WORDS }
    ensures { state_of words.new ≡ with_tx (state_of words.old) (with_ends (state_of words.old).tx (state_of words.old).tx.txed_last_consumed (state_of words.old).tx.send_finish_sent set) }
{
    words[TX + 8] = flag(set);
}
