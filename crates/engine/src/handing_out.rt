// Handing out: showing the oldest ready message and taking it, taking an ack, and whether a Consumed is due.
ghost use Rattle.std.specs.Prelude.{◌≡◌, ◌+◌, ◌^◌, ◌<◌, [], ◌∷◌, length};
ghost use Rattle.engine.specs.Gates.{state_verdict};
ghost use Rattle.engine.specs.HandingOut.{ready_of, msg_in, ready_values, hand_out_told, hand_out_by, data_length, ready_bytes, show_verdict, showing_of, shown_at, shown_of, take_verdict, can_skip, passed_by, skipped, taken_in, take_of, take_records, is_waiting, ack_in, take_ack_verdict, take_ack_told, ack_answer, taken_ack_state, take_ack_of, due_above, is_due, due_told, due_of};
ghost use Rattle.refusal.specs.Answers.{told_by, flag};
ghost use Rattle.link.specs.Acks.{oldest_ack};
ghost use Rattle.engine.specs.Rows.{row_of};
ghost use Rattle.engine.specs.Fields.{with_rx};
ghost use Rattle.engine.specs.Received.{table_of};
ghost use Rattle.engine.specs.CellTally.{Lent};

use crate::cells::held_at;
use crate::gates::slot_verdict;
use crate::packets::is_data;
use crate::receiving::lengths_ok;
use crate::records::held_bytes;
use crate::ring::cell_at;
use crate::rows::{row_of, with_row};
use crate::sizes::DATA_BYTES;
use crate::sound::{is_sound, is_sound_with};
use crate::state::{Held, Receiving, State};
use crate::totals::{MAX_TOTAL, less, sum_fits};
use link::LinkRow;
use msg::ReliableMsg;
use refusal::{Refusal, refuse_unless};
use seq::Seq;

pub type HandOut = Result<(ReliableMsg, Seq, u32), Refusal>;

// The oldest ready message, where there is one.
#[tactic(auto, unfolding(crate::specs::HandingOut::ready_of))]
pub fn oldest_ready(rx: Receiving, records: &[u64]) -> Held
    requires { Lent rx (length records.now) }
    ensures { result ≡ ready_of (table_of rx records.now) }
{
    if rx.rx_oldest == rx.rx_seq {
        return None;
    }
    held_at(rx, records, rx.rx_oldest)
}

// The message that a cell holds; that of an empty one is never asked, and `msg_in`, which `hand_out_by` is made of, says Data.
pub fn msg_in(held: Held) -> ReliableMsg
    ensures { result ≡ msg_in held }
{
    held.map_or(ReliableMsg::Data, |(msg, _)| msg)
}

// The answer about the oldest ready message.
#[tactic(auto, unfolding(crate::specs::HandingOut::hand_out_by))]
fn hand_out(verdict: Result<(), Refusal>, rx: Receiving, records: &[u64]) -> HandOut
    requires { verdict ≡ Ok tt → Lent rx (length records.now) }
    ensures { result ≡ hand_out_by verdict (table_of rx records.now) }
{
    verdict?;
    let held = oldest_ready(rx, records);
    Ok((msg_in(held), rx.rx_oldest, held_bytes(held)))
}

// The data bytes of a message: only Data has any.
pub fn data_length(msg: ReliableMsg, len: u32) -> u32
    ensures { result ≡ data_length msg len }
{
    if is_data(msg) { len } else { 0 }
}

// The data bytes that taking would take.
pub fn ready_bytes(held: Held) -> u32
    ensures { result ≡ ready_bytes held }
{
    held.map_or(0, |(msg, len)| data_length(msg, len))
}

#[tactic(auto, unfolding(crate::specs::HandingOut::show_verdict))]
fn show_verdict(s: State, store: usize, records: &[u64]) -> Result<(), Refusal>
    ensures { result ≡ show_verdict s store records.now }
{
    refuse_unless(lengths_ok(s.rx, store, records.len()), Refusal::StoreLength)?;
    refuse_unless(is_sound_with(s, records), Refusal::Unsound)?;
    refuse_unless(oldest_ready(s.rx, records).is_some(), Refusal::Nothing)
}

// What `show` shows: the message, its number and the length of its data, or why there is nothing to show.
pub fn showing(s: State, store: &[u8], records: &[u64]) -> HandOut
    ensures value { result ≡ showing_of s (length store.now) records.now }
    ensures result_value { hand_out_told result ≡ told_by (show_verdict s (length store.now) records.now) (ready_values (table_of s.rx records.now)) }
{
    hand_out(show_verdict(s, store.len(), records), s.rx, records)
}

// The part of the received store that holds the bytes of the oldest ready message.
pub fn show<'a, 'b>(s: State, store: &'a [u8], records: &'b [u64]) -> &'a [u8]
    ensures result_value { result.now ≡ shown_of s store.now records.now }
    ensures ref_ptr_value { result.ref_ptr ≡ shown_at s (length store.now) records.now store.entry.ref_ptr }
{
    match showing(s, store, records) {
        Err(_) => &store[..0],
        Ok((msg, seq, len)) => {
            let start = cell_at(s.rx.cells, seq) * DATA_BYTES;
            let end = start + data_length(msg, len) as usize;
            &store[start..end]
        }
    }
}

#[derive(Clone, Copy)]
pub struct TakeResult {
    pub answer: HandOut,
    pub state: State,
}

#[tactic(auto, unfolding(crate::specs::HandingOut::take_verdict))]
fn take_verdict(s: State, records: &[u64]) -> Result<(), Refusal>
    ensures { result ≡ take_verdict s records.now }
{
    let rx = s.rx;
    refuse_unless(records.len() == rx.cells as usize, Refusal::StoreLength)?;
    refuse_unless(is_sound_with(s, records), Refusal::Unsound)?;
    let held = oldest_ready(rx, records);
    let bytes = ready_bytes(held) as usize;
    let fits = sum_fits(rx.rxed_reliable_consumed, bytes, MAX_TOTAL);
    refuse_unless(fits, Refusal::Total)?;
    refuse_unless(held.is_some(), Refusal::Nothing)
}

// Whether the oldest number stands for nothing ready and lies before the next expected.
#[tactic(auto, unfolding(crate::specs::HandingOut::can_skip))]
fn can_skip(rx: Receiving, records: &[u64]) -> bool
    requires { Lent rx (length records.now) }
    ensures { result ≡ can_skip rx.cells records.now rx }
{
    rx.rx_oldest != rx.rx_seq && held_at(rx, records, rx.rx_oldest).is_none()
}

// The oldest number moves one along.
#[tactic(auto, unfolding(crate::specs::HandingOut::passed_by))]
fn pass_by(rx: Receiving) -> Receiving
    ensures { result ≡ passed_by rx }
{
    Receiving {
        rx_oldest: rx.rx_oldest.add(1),
        ..rx
    }
}

// The oldest number moves to the next ready message, or to the next expected number.
fn skip(rx: Receiving, records: &[u64]) -> Receiving
    requires { Lent rx (length records.now) }
    ensures { result ≡ skipped rx.cells rx.cells records.now rx }
{
    let mut out = rx;
    for _ in 0..rx.cells {
        if !can_skip(out, records) {
            return out;
        }
        out = pass_by(out);
    }
    out
}

// The receive table without its oldest ready message, of so many data bytes.
#[tactic(auto, unfolding(crate::specs::HandingOut::taken_in, crate::specs::HandingOut::passed_by))]
pub fn take_message(rx: Receiving, records: &mut [u64], bytes: u32) -> Receiving
    requires { Lent rx (length records.old) × (rx.rxed_reliable_consumed + bytes < 2 ^ 32) }
    ensures value { result ≡ (taken_in rx.cells (table_of rx records.old) bytes).rx }
    ensures records_after { records.new ≡ (taken_in rx.cells (table_of rx records.old) bytes).records }
{
    let at = cell_at(rx.cells, rx.rx_oldest);
    records[at] = 0;
    let taken = Receiving {
        rxed_reliable_size: less(rx.rxed_reliable_size, bytes),
        rxed_reliable_consumed: rx.rxed_reliable_consumed + bytes,
        ..pass_by(rx)
    };
    skip(taken, records)
}

// The state with the receiving half that is left.
fn with_rx(s: State, rx: Receiving) -> State
    ensures { result ≡ with_rx s rx }
{
    State { rx, ..s }
}

// Takes the oldest ready message, and empties its record.
pub fn take(s: State, records: &mut [u64]) -> TakeResult
    ensures value { result ≡ take_of s records.old }
    ensures answer_value { hand_out_told result.answer ≡ told_by (take_verdict s records.old) (ready_values (table_of s.rx records.old)) }
    ensures records_after { records.new ≡ take_records s records.old }
{
    let rx = s.rx;
    let answer = hand_out(take_verdict(s, records), rx, records);
    match answer {
        Err(_) => TakeResult { answer, state: s },
        Ok((msg, _, len)) => {
            let next = take_message(rx, records, data_length(msg, len));
            TakeResult {
                answer,
                state: with_rx(s, next),
            }
        }
    }
}

#[derive(Clone, Copy)]
pub struct TakeAckResult {
    pub answer: Result<Seq, Refusal>,
    pub state: State,
}

// The link's oldest ack.
#[tactic(auto, unfolding(crate::specs::HandingOut::ack_answer, crate::specs::HandingOut::take_ack_verdict, crate::specs::Gates::slot_verdict))]
fn ack_answer(s: State, slot: u8) -> Result<Seq, Refusal>
    ensures { result ≡ ack_answer s slot }
{
    slot_verdict(s, slot)?;
    row_of(s, slot).oldest_ack().ok_or(Refusal::Nothing)
}

#[tactic(auto, unfolding(crate::specs::HandingOut::taken_ack_state))]
fn taken_ack_state(s: State, slot: u8) -> State
    ensures { result ≡ taken_ack_state s slot }
{
    let row = row_of(s, slot);
    with_row(s, slot, row.take_ack())
}

// Takes the link's oldest ack.
#[tactic(auto, unfolding(crate::specs::HandingOut::take_ack_of))]
pub fn take_ack(s: State, slot: u8) -> TakeAckResult
    ensures value { result ≡ take_ack_of s slot }
    ensures answer_value { take_ack_told result.answer ≡ told_by (take_ack_verdict s slot) ((ack_in (oldest_ack (row_of s slot))).0 ∷ []) }
{
    let answer = ack_answer(s, slot);
    match answer {
        Err(_) => TakeAckResult { answer, state: s },
        Ok(_) => TakeAckResult {
            answer,
            state: taken_ack_state(s, slot),
        },
    }
}

// A Consumed is due above this count: with nobody reading, none need be saved up.
fn due_above(s: State) -> u32
    ensures { result ≡ due_above s }
{
    if s.read_open {
        s.rx.recv_buffer / 10
    } else {
        0
    }
}

// Whether the other end is to be told what was taken.
#[tactic(auto, unfolding(crate::specs::HandingOut::due_of))]
pub fn is_consume_ack_required(s: State) -> Result<bool, Refusal>
    ensures value { result ≡ due_of s }
    ensures result_value { due_told result ≡ told_by (state_verdict s) (flag (is_due s) ∷ []) }
{
    refuse_unless(is_sound(s), Refusal::Unsound)?;
    Ok(due_above(s) < s.rx.rxed_reliable_consumed)
}
