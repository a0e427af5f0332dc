// Sending a message.
ghost use Rattle.std.specs.Prelude.{◌≡◌, ◌+◌, ◌^◌, ◌<◌, ◌≤◌, [], ◌∷◌, length};
ghost use Rattle.engine.specs.Sending.{open_ok, told_ok, totals_ok, send_verdict, sent_tx, told_rx, Room, sent_state, send_told, send_of, send_store};
ghost use Rattle.refusal.specs.Answers.{told_by};
ghost use Rattle.engine.specs.Sizes.{PACKETS};
ghost use Rattle.msg.specs.Reliable.{count_of};

use crate::gates::timed_gates;
use crate::packets::length_ok;
use crate::records::is_ready_kind;
use crate::ring::cell_at;
use crate::rows::{row_of, with_row};
use crate::sizes::{DATA_BYTES, PACKET_ROUND, PACKETS, SENT_BYTES};
use crate::state::{InFlight, Receiving, Sending, SentReliable, SentReliableStatus, State};
use crate::totals::{MAX_TOTAL, sum_fits};
use msg::{LinkMsg, ReliableMsg};
use refusal::{Refusal, refuse_unless};
use seq::Seq;

#[derive(Clone, Copy)]
pub struct SendResult {
    pub answer: Result<Seq, Refusal>,
    pub state: State,
}

// Whether a message may be given at all: no more data after the end of sending.
pub fn open_ok(finished: bool, msg: ReliableMsg) -> bool
    ensures { result ≡ open_ok finished msg }
{
    !finished || !is_ready_kind(msg)
}

// Whether a Consumed tells of bytes that were taken and not told yet.
pub fn told_ok(msg: ReliableMsg, untold: u32) -> bool
    ensures { result ≡ told_ok msg untold }
{
    let n = msg.count();
    (msg.kind() != LinkMsg::MSG_CONSUMED || 1 <= n) && n <= untold
}

fn totals_ok(s: State, slot: u8, msg: ReliableMsg, len: usize) -> bool
    ensures { result ≡ totals_ok s slot msg len }
{
    sum_fits(s.tx.txed_unacked, len, MAX_TOTAL)
        && sum_fits(s.tx.txed_unconsumed, len, MAX_TOTAL)
        && sum_fits(row_of(s, slot).txed_unacked_data, len, MAX_TOTAL)
        && told_ok(msg, s.rx.rxed_reliable_consumed)
}

fn send_verdict(
    s: State,
    store: usize,
    slot: u8,
    time: u64,
    msg: ReliableMsg,
    len: usize,
) -> Result<(), Refusal>
    ensures { result ≡ send_verdict s store slot time msg len }
{
    refuse_unless(store == SENT_BYTES, Refusal::StoreLength)?;
    timed_gates(s, slot, time)?;
    refuse_unless(length_ok(msg, len), Refusal::Length)?;
    refuse_unless(open_ok(s.tx.send_finish_sent, msg), Refusal::Finished)?;
    refuse_unless(totals_ok(s, slot, msg, len), Refusal::Total)?;
    refuse_unless(s.tx.txed_count < PACKETS, Refusal::Full)
}

// The sending half with one packet more.
fn sent_tx(tx: Sending, slot: u8, link: u64, time: u64, msg: ReliableMsg, len: u32) -> Sending
    requires { (tx.txed_count < PACKETS) × (tx.txed_unacked + len < 2 ^ 32) × (tx.txed_unconsumed + len < 2 ^ 32) }
    ensures { result ≡ sent_tx tx slot link time msg len }
{
    let seq = tx.tx_seq;
    let at = cell_at(PACKET_ROUND, seq);
    let status = SentReliableStatus::Sent(InFlight::new(time, slot, link, false));
    let p = SentReliable::new(seq, msg, len, status);
    let mut out = Sending {
        tx_seq: seq.add(1),
        txed_count: tx.txed_count + 1,
        txed_unacked: tx.txed_unacked + len,
        txed_unconsumed: tx.txed_unconsumed + len,
        send_finish_sent: tx.send_finish_sent || msg.kind() == LinkMsg::MSG_SEND_FINISH,
        ..tx
    };
    out.txed_packets[at] = p;
    out
}

fn told_rx(rx: Receiving, msg: ReliableMsg) -> Receiving
    requires { count_of msg ≤ rx.rxed_reliable_consumed }
    ensures { result ≡ told_rx rx msg }
{
    Receiving {
        rxed_reliable_consumed: rx.rxed_reliable_consumed - msg.count(),
        ..rx
    }
}

fn sent_state(s: State, slot: u8, time: u64, msg: ReliableMsg, len: u32) -> State
    requires { Room s slot msg len }
    ensures { result ≡ sent_state s slot time msg len }
{
    let row = row_of(s, slot);
    let next = row.with_unacked(row.txed_unacked_data + len);
    State {
        tx: sent_tx(s.tx, slot, row.link_id, time, msg, len),
        rx: told_rx(s.rx, msg),
        time,
        ..with_row(s, slot, next)
    }
}

// Takes the next number for a message, keeps it, and copies its data to the number's cell of the sent store.
pub fn send(
    s: State,
    store: &mut [u8],
    slot: u8,
    time: u64,
    msg: ReliableMsg,
    payload: &[u8],
) -> SendResult
    ensures value { result ≡ send_of s (length store.old) slot time msg (length payload.now) }
    ensures answer_value { send_told result.answer ≡ told_by (send_verdict s (length store.old) slot time msg (length payload.now)) (s.tx.tx_seq.0 ∷ []) }
    ensures store_after { store.new ≡ send_store s store.old slot time msg payload.now }
{
    let len = payload.len();
    match send_verdict(s, store.len(), slot, time, msg, len) {
        Err(e) => SendResult {
            answer: Err(e),
            state: s,
        },
        Ok(()) => {
            let seq = s.tx.tx_seq;
            let start = cell_at(PACKET_ROUND, seq) * DATA_BYTES;
            let end = start + len;
            store[start..end].copy_from_slice(payload);
            let next = sent_state(s, slot, time, msg, len as u32);
            SendResult {
                answer: Ok(seq),
                state: next,
            }
        }
    }
}
