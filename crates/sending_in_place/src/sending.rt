// Sending a message.
ghost use Rattle.std.specs.Prelude.{◌≡◌, ◌+◌, ◌<◌, ◌≤◌, ◌^◌, length};
ghost use Rattle.msg.specs.Reliable.{count_of};
ghost use Rattle.engine.specs.Sizes.{PACKETS};
ghost use Rattle.engine.specs.Fields.{with_tx, with_rx};
ghost use Rattle.engine.specs.Sending.{totals_ok, send_verdict, sent_tx, told_rx, Room, sent_state, send_of, send_store, send_told};
ghost use Rattle.words.specs.Layout.{WORDS};
ghost use Rattle.words.specs.Meaning.{state_of};
ghost use Rattle.words.specs.Ready.{Ready, Left};
ghost use Rattle.words.specs.Encoded.{numbers_of};
ghost use Rattle.sending_in_place.specs.Untold.{finished_tx};

use crate::rows::{put_more, row_of};
use crate::table::cell_of;
use engine::packets::length_ok;
use engine::sending::{open_ok, told_ok};
use engine::totals::{MAX_TOTAL, sum_fits};
use engine::{DATA_BYTES, InFlight, PACKETS, SENT_BYTES, SentReliable, SentReliableStatus};
use msg::{LinkMsg, ReliableMsg};
use refusal::{Refusal, refuse_unless};
use seq::Seq;
use words::clock::put_time;
use words::copying::copy;
use words::gates::{slot_ok, time_ok};
use words::layout::WORDS;
use words::packet::put_packet;
use words::receiving::{put_rxed_reliable_consumed, rx_of};
use words::sending::{
    SendingNumbers, put_send_finish_sent, put_tx_seq, put_txed_count, put_txed_unacked,
    put_txed_unconsumed, tx_of,
};

fn totals_ok(
    words: &[u64; WORDS],
    tx: SendingNumbers,
    slot: u8,
    msg: ReliableMsg,
    len: usize,
) -> bool
    requires { tx ≡ numbers_of (state_of words.now).tx }
    ensures { result ≡ totals_ok (state_of words.now) slot msg len }
{
    if !sum_fits(tx.txed_unacked, len, MAX_TOTAL) {
        return false;
    }
    if !sum_fits(tx.txed_unconsumed, len, MAX_TOTAL) {
        return false;
    }
    if !sum_fits(row_of(words, slot).txed_unacked_data, len, MAX_TOTAL) {
        return false;
    }
    told_ok(msg, rx_of(words).rxed_reliable_consumed)
}

fn send_verdict(
    words: &[u64; WORDS],
    store: usize,
    slot: u8,
    time: u64,
    msg: ReliableMsg,
    len: usize,
) -> Result<(), Refusal>
    requires { Ready words.now }
    ensures { result ≡ send_verdict (state_of words.now) store slot time msg len }
{
    refuse_unless(store == SENT_BYTES, Refusal::StoreLength)?;
    refuse_unless(time_ok(words, time), Refusal::Time)?;
    refuse_unless(slot_ok(words, slot), Refusal::Slot)?;
    refuse_unless(length_ok(msg, len), Refusal::Length)?;
    let tx = tx_of(words);
    refuse_unless(open_ok(tx.send_finish_sent, msg), Refusal::Finished)?;
    refuse_unless(totals_ok(words, tx, slot, msg, len), Refusal::Total)?;
    refuse_unless(tx.txed_count < PACKETS, Refusal::Full)
}

// A SendFinish ends sending.
fn put_finish(words: &mut [u64; WORDS], msg: ReliableMsg)
    ensures { state_of words.new ≡ with_tx (state_of words.old) (finished_tx (state_of words.old).tx msg) }
{
    if msg.kind() == LinkMsg::MSG_SEND_FINISH {
        put_send_finish_sent(words, true);
    }
}

// The sending half with one packet more.
fn put_next(words: &mut [u64; WORDS], slot: u8, link: u64, time: u64, msg: ReliableMsg, len: u32)
    requires { (len < 2 ^ 24) × ((state_of words.old).tx.txed_count < PACKETS) × ((state_of words.old).tx.txed_unacked + len < 2 ^ 32) × ((state_of words.old).tx.txed_unconsumed + len < 2 ^ 32) }
    ensures { state_of words.new ≡ with_tx (state_of words.old) (sent_tx (state_of words.old).tx slot link time msg len) }
{
    let tx = tx_of(words);
    let seq = tx.tx_seq;
    let status = SentReliableStatus::Sent(InFlight::new(time, slot, link, false));
    let p = SentReliable::new(seq, msg, len, status);
    put_packet(words, cell_of(seq), p);
    put_tx_seq(words, seq.add(1));
    put_txed_count(words, tx.txed_count + 1);
    put_txed_unacked(words, tx.txed_unacked + len);
    put_txed_unconsumed(words, tx.txed_unconsumed + len);
    put_finish(words, msg);
}

// Most messages are a Data, which tells of nothing.
fn put_told(words: &mut [u64; WORDS], msg: ReliableMsg)
    requires { count_of msg ≤ (state_of words.old).rx.rxed_reliable_consumed }
    ensures { state_of words.new ≡ with_rx (state_of words.old) (told_rx (state_of words.old).rx msg) }
{
    if let ReliableMsg::Data = msg {
        return;
    }
    let rx = rx_of(words);
    put_rxed_reliable_consumed(words, rx.rxed_reliable_consumed - msg.count());
}

fn put_sent(words: &mut [u64; WORDS], slot: u8, time: u64, msg: ReliableMsg, len: u32)
    requires { (slot < 8) × (len < 2 ^ 24) × Room (state_of words.old) slot msg len }
    ensures { state_of words.new ≡ sent_state (state_of words.old) slot time msg len }
{
    let link = row_of(words, slot).link_id;
    put_more(words, slot, len);
    put_next(words, slot, link, time, msg, len);
    put_told(words, msg);
    put_time(words, time);
}

// Takes the next number for a message, keeps it, and copies its data to the number's cell of the sent store.
pub fn send(
    words: &mut [u64; WORDS],
    store: &mut [u8],
    slot: u8,
    time: u64,
    msg: ReliableMsg,
    payload: &[u8],
) -> Result<Seq, Refusal>
    requires { Ready words.old }
    ensures value { result ≡ (send_of (state_of words.old) (length store.old) slot time msg (length payload.now)).answer }
    ensures words_after { state_of words.new ≡ (send_of (state_of words.old) (length store.old) slot time msg (length payload.now)).state }
    ensures store_after { store.new ≡ send_store (state_of words.old) store.old slot time msg payload.now }
    ensures left { Left (send_told result).number words.old words.new }
{
    let len = payload.len();
    send_verdict(words, store.len(), slot, time, msg, len)?;
    let seq = tx_of(words).tx_seq;
    let start = cell_of(seq) * DATA_BYTES;
    let end = start + len;
    copy(payload, &mut store[start..end]);
    put_sent(words, slot, time, msg, len as u32);
    Ok(seq)
}
