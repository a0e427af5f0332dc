// Where the packet table starts, and which numbers it holds.
ghost use Rattle.std.specs.Prelude.{◌≡◌, ◌%◌, ◌≤◌, ◌<◌, ◌^◌, length, map};
ghost use Rattle.seq.specs.Numbers.{minus};
ghost use Rattle.engine.specs.declared.state.SentReliable.{SentReliable};
ghost use Rattle.engine.specs.Fields.{with_tx};
ghost use Rattle.engine.specs.Packets.{packets};
ghost use Rattle.engine.specs.Sizes.{PACKETS};
ghost use Rattle.engine.specs.Table.{with_table};
ghost use Rattle.words.specs.Layout.{WORDS};
ghost use Rattle.words.specs.Meaning.{state_of};
ghost use Rattle.sending_in_place.specs.Table.{held_in};

use engine::ring::next_cell;
use engine::sizes::PACKET_ROUND;
use engine::{PACKETS, SentReliable};
use seq::Seq;
use words::layout::WORDS;
use words::packet::{packet_at, put_packet};
use words::sending::{SendingNumbers, tx_of};

// The cell of the first packet.
pub(crate) fn first_cell(tx: SendingNumbers) -> usize
    requires { tx.txed_count ≤ PACKETS }
    ensures value { result ≡ minus tx.tx_seq.0 tx.txed_count % PACKETS }
    ensures upper_bound { result < PACKETS }
{
    let first = tx.tx_seq.sub(tx.txed_count as u32);
    (first.0 % PACKET_ROUND) as usize
}

// Whether the table holds the number: it is 1 to txed_count before the next one.
pub(crate) fn in_table(tx: SendingNumbers, seq: Seq) -> bool
    ensures { result ≡ held_in tx seq.0 }
{
    let back = tx.tx_seq.past(seq) as usize;
    1 <= back && back <= tx.txed_count
}

// The cell of a number.
pub(crate) fn cell_of(seq: Seq) -> usize
    ensures value { result ≡ seq.0 % PACKETS }
    ensures upper_bound { result < PACKETS }
{
    (seq.0 % PACKET_ROUND) as usize
}

// Changes each packet of the table in its place; the cells outside of it are not touched.
pub(crate) fn change_packets<F: Fn(SentReliable) -> SentReliable>(words: &mut [u64; WORDS], step: F)
    requires words_len { (state_of words.old).tx.txed_count ≤ PACKETS }
    requires callable { F.IsAlwaysCallable step }
    requires short { (p : SentReliable) (q : SentReliable) → F.post step p q → p.len < 2 ^ 24 → q.len < 2 ^ 24 }
    ensures { (f : SentReliable → SentReliable) → ((p : SentReliable) (q : SentReliable) → F.post step p q → q ≡ f p) → state_of words.new ≡ with_tx (state_of words.old) (with_table (state_of words.old).tx (map f (packets (state_of words.old).tx))) }
{
    let tx = tx_of(words);
    let mut at = first_cell(tx);
    for _ in 0..tx.txed_count {
        let p = packet_at(words, at);
        put_packet(words, at, step(p));
        at = next_cell(PACKETS, at);
    }
}
