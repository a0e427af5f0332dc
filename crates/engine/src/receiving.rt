// Receiving a message.
ghost use Rattle.std.specs.Prelude.{◌≡◌, ◌≤◌, [], length};
ghost use Rattle.engine.specs.Receiving.{message_verdict, lengths_ok, receive_verdict, effect_tx, Storing, repeated_state, effect_state, receive_of, receive_store, receive_records};
ghost use Rattle.engine.specs.Received.{table_of};
ghost use Rattle.engine.specs.CellTally.{Lent};
ghost use Rattle.engine.specs.Cells.{stored_in};
ghost use Rattle.msg.specs.Reliable.{count_of};
ghost use Rattle.refusal.specs.Answers.{told_by};
ghost use Rattle.engine.specs.Answer.{outcome_told};

use crate::answer::Changed;
use crate::cells::{advance, is_repeat, near_oldest, open_cells};
use crate::packets::length_ok;
use crate::records::record_of;
use crate::ring::cell_at;
use crate::rows::{row_of, slot_ok, with_row};
use crate::sizes::{DATA_BYTES, MAX_OFFSET};
use crate::sound::is_sound_with;
use crate::state::{Held, Receiving, Sending, State};
use crate::totals::sum_fits;
use link::sizes::ACKS;
use msg::{LinkMsg, ReliableMsg};
use refusal::{Refusal, refuse_unless};
use seq::Seq;

// A message that arrives: over which link, what it is, its number and how many bytes come with it.
#[derive(Clone, Copy)]
struct Arrival {
    slot: u8,
    msg: ReliableMsg,
    seq: Seq,
    len: usize,
}

// What is asked of a message in a sound state, with its records.
#[tactic(auto, unfolding(crate::specs::Receiving::message_verdict))]
fn message_verdict(s: State, records: &[u64], arrival: Arrival) -> Result<(), Refusal>
    requires { Lent s.rx (length records.now) }
    ensures { result ≡ message_verdict s records.now arrival.slot arrival.msg arrival.seq.0 arrival.len }
{
    let Arrival {
        slot,
        msg,
        seq,
        len,
    } = arrival;
    let rx = s.rx;
    let again = is_repeat(rx, records, seq);
    let offset = again || seq.past(rx.rx_seq) <= MAX_OFFSET;
    let window = again || near_oldest(rx, seq);
    let room = again || sum_fits(rx.rxed_reliable_size, len, rx.recv_buffer);
    let consumed = again || msg.count() <= s.tx.txed_unconsumed;
    refuse_unless(slot_ok(s, slot), Refusal::Slot)?;
    refuse_unless(length_ok(msg, len), Refusal::Length)?;
    refuse_unless(seq.is_near(rx.rx_seq), Refusal::Far)?;
    refuse_unless(offset, Refusal::Offset)?;
    refuse_unless(window, Refusal::Window)?;
    refuse_unless(row_of(s, slot).ack_count < ACKS, Refusal::Acks)?;
    refuse_unless(room, Refusal::Buffer)?;
    refuse_unless(consumed, Refusal::Consumed)
}

// Whether the received store and the record space have the lengths that the state's cell count asks for.
pub fn lengths_ok(rx: Receiving, store: usize, records: usize) -> bool
    ensures { result ≡ lengths_ok rx store records }
{
    let cells = rx.cells as usize;
    store == cells * DATA_BYTES && records == cells
}

#[tactic(auto, unfolding(crate::specs::Receiving::receive_verdict))]
fn receive_verdict(s: State, store: usize, records: &[u64], arrival: Arrival) -> Result<(), Refusal>
    ensures { result ≡ receive_verdict s store records.now arrival.slot arrival.msg arrival.seq.0 arrival.len }
{
    refuse_unless(lengths_ok(s.rx, store, records.len()), Refusal::StoreLength)?;
    refuse_unless(is_sound_with(s, records), Refusal::Unsound)?;
    message_verdict(s, records, arrival)
}

// A new message's effect on the sending half, at once, even while it is held.
#[tactic(auto, unfolding(crate::specs::Receiving::effect_tx))]
fn effect_tx(tx: Sending, msg: ReliableMsg) -> Sending
    requires { count_of msg ≤ tx.txed_unconsumed }
    ensures { result ≡ effect_tx tx msg }
{
    let kind = msg.kind();
    Sending {
        txed_unconsumed: tx.txed_unconsumed - msg.count(),
        send_finish_sent: tx.send_finish_sent || kind == LinkMsg::MSG_RECEIVE_FINISH,
        write_closed: tx.write_closed || kind == LinkMsg::MSG_RECEIVE_CLOSE,
        ..tx
    }
}

// A new message's record in its cell, and then what is consecutive passed.
#[tactic(auto, unfolding(crate::specs::Cells::put_in))]
pub fn store_message(
    rx: Receiving,
    records: &mut [u64],
    msg: ReliableMsg,
    seq: Seq,
    len: u32,
) -> Receiving
    requires { Storing rx (length records.old) seq.0 len }
    ensures value { result ≡ (stored_in rx.cells (table_of rx records.old) msg seq.0 len).rx }
    ensures records_after { records.new ≡ (stored_in rx.cells (table_of rx records.old) msg seq.0 len).records }
{
    let rx_end = open_cells(rx, records, seq);
    let at = cell_at(rx.cells, seq);
    records[at] = record_of(Some((msg, len)));
    let stored = Receiving {
        rx_end,
        rxed_reliable_size: rx.rxed_reliable_size + len,
        ..rx
    };
    advance(stored, records)
}

// A repeat adds an ack and nothing else.
#[tactic(auto, unfolding(crate::specs::Receiving::repeated_state))]
fn repeated_state(s: State, slot: u8, seq: Seq) -> State
    ensures { result ≡ repeated_state s slot seq.0 }
{
    with_row(s, slot, row_of(s, slot).queue_ack(seq))
}

// The ack, the effect, and the receiving half as the table left it.
#[tactic(auto, unfolding(crate::specs::Receiving::effect_state, crate::specs::Receiving::repeated_state))]
fn received_state(s: State, arrival: Arrival, rx: Receiving) -> State
    requires { count_of arrival.msg ≤ s.tx.txed_unconsumed }
    ensures { result ≡ effect_state s arrival.slot arrival.msg arrival.seq.0 rx }
{
    State {
        tx: effect_tx(s.tx, arrival.msg),
        rx,
        ..repeated_state(s, arrival.slot, arrival.seq)
    }
}

// Receives a message over a link: a new one's record and bytes go to the number's cell of the record space and of the received store.
pub fn receive(
    s: State,
    store: &mut [u8],
    records: &mut [u64],
    slot: u8,
    msg: ReliableMsg,
    seq: Seq,
    payload: &[u8],
) -> Changed
    ensures value { result ≡ receive_of s (length store.old) records.old slot msg seq.0 (length payload.now) }
    ensures outcome_value { outcome_told result.outcome ≡ told_by (receive_verdict s (length store.old) records.old slot msg seq.0 (length payload.now)) [] }
    ensures store_after { store.new ≡ receive_store s store.old records.old slot msg seq.0 payload.now }
    ensures records_after { records.new ≡ receive_records s (length store.old) records.old slot msg seq.0 (length payload.now) }
{
    let len = payload.len();
    let arrival = Arrival {
        slot,
        msg,
        seq,
        len,
    };
    let verdict = receive_verdict(s, store.len(), records, arrival);
    match verdict {
        Err(e) => Changed {
            outcome: Err(e),
            state: s,
        },
        Ok(()) => {
            let rx = s.rx;
            if is_repeat(rx, records, seq) {
                return Changed {
                    outcome: Ok(()),
                    state: repeated_state(s, slot, seq),
                };
            }
            let start = cell_at(rx.cells, seq) * DATA_BYTES;
            let end = start + len;
            store[start..end].copy_from_slice(payload);
            let next = store_message(rx, records, msg, seq, len as u32);
            Changed {
                outcome: Ok(()),
                state: received_state(s, arrival, next),
            }
        }
    }
}
