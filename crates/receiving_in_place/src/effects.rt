// What a received message leaves of the state: its ack, and its effect on the sending half.
ghost use Rattle.std.specs.Prelude.{◌≡◌, ◌≤◌, ◌<◌, length};
ghost use Rattle.msg.specs.Reliable.{count_of};
ghost use Rattle.link.specs.Sizes.{ACKS};
ghost use Rattle.engine.specs.Sound.{row_at};
ghost use Rattle.engine.specs.Rows.{row_of};
ghost use Rattle.engine.specs.Fields.{with_tx, with_rx};
ghost use Rattle.engine.specs.Receiving.{effect_tx, repeated_state, effect_state};
ghost use Rattle.words.specs.Layout.{WORDS};
ghost use Rattle.words.specs.Meaning.{state_of};
ghost use Rattle.receiving_in_place.specs.Moves.{stored_moves};

use engine::{Receiving, SLOTS};
use msg::{LinkMsg, ReliableMsg};
use seq::Seq;
use words::layout::WORDS;
use words::queues::put_ack;
use words::receiving::{put_rx_end, put_rx_oldest, put_rx_seq, put_rxed_reliable_size};
use words::row::{put_ack_count, row_at};
use words::sending::{SendingNumbers, put_tx, tx_of};

// How many acks wait at a slot; past the eight, none.
pub(crate) fn acks_at(words: &[u64; WORDS], slot: u8) -> usize
    ensures { result ≡ (row_of (state_of words.now) slot).ack_count }
{
    let j = slot as usize;
    if SLOTS <= j {
        return 0;
    }
    row_at(words, j).ack_count
}

// One more ack behind a slot's others.
pub(crate) fn queue_ack(words: &mut [u64; WORDS], slot: u8, seq: Seq)
    requires { (slot < 8) × ((row_at (state_of words.old) slot).ack_count < ACKS) }
    ensures { state_of words.new ≡ repeated_state (state_of words.old) slot seq.0 }
{
    let j = slot as usize;
    let n = row_at(words, j).ack_count;
    put_ack(words, j, n, seq);
    put_ack_count(words, j, n + 1);
}

// A new message's effect on the sending half; most are a Data, which has none.
fn put_effect(words: &mut [u64; WORDS], msg: ReliableMsg)
    requires { count_of msg ≤ (state_of words.old).tx.txed_unconsumed }
    ensures { state_of words.new ≡ with_tx (state_of words.old) (effect_tx (state_of words.old).tx msg) }
{
    if let ReliableMsg::Data = msg {
        return;
    }
    let kind = msg.kind();
    let tx = tx_of(words);
    let finished = tx.send_finish_sent || kind == LinkMsg::MSG_RECEIVE_FINISH;
    let closed = tx.write_closed || kind == LinkMsg::MSG_RECEIVE_CLOSE;
    let next = SendingNumbers {
        txed_unconsumed: tx.txed_unconsumed - msg.count(),
        send_finish_sent: finished,
        write_closed: closed,
        ..tx
    };
    put_tx(words, next);
}

// What a stored message moves of the receiving half.
fn put_stored(words: &mut [u64; WORDS], rx: Receiving)
    ensures { state_of words.new ≡ with_rx (state_of words.old) (stored_moves (state_of words.old).rx rx) }
{
    let seq = rx.rx_seq;
    let oldest = rx.rx_oldest;
    let end = rx.rx_end;
    put_rx_seq(words, seq);
    put_rx_oldest(words, oldest);
    put_rxed_reliable_size(words, rx.rxed_reliable_size);
    put_rx_end(words, end);
}

// The ack, the effect, and the receiving half as the table left it.
pub(crate) fn put_received(
    words: &mut [u64; WORDS],
    slot: u8,
    msg: ReliableMsg,
    seq: Seq,
    rx: Receiving,
)
    requires { (slot < 8) × (rx ≡ stored_moves (state_of words.old).rx rx) × ((row_at (state_of words.old) slot).ack_count < ACKS) × (count_of msg ≤ (state_of words.old).tx.txed_unconsumed) }
    ensures { state_of words.new ≡ effect_state (state_of words.old) slot msg seq.0 rx }
{
    queue_ack(words, slot, seq);
    put_effect(words, msg);
    put_stored(words, rx);
}
