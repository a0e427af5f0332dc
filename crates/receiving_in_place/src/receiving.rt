// Receiving a message.
ghost use Rattle.std.specs.Prelude.{◌≡◌, false, ◌*◌, ◌≤◌, ◌<◌, length};
ghost use Rattle.engine.specs.Answer.{outcome_told};
ghost use Rattle.engine.specs.Received.{table_of};
ghost use Rattle.engine.specs.Sizes.{DATA_BYTES};
ghost use Rattle.engine.specs.Stores.{cell_start, copied};
ghost use Rattle.engine.specs.CellTally.{Lent};
ghost use Rattle.engine.specs.Cells.{is_repeat};
ghost use Rattle.engine.specs.Receiving.{message_verdict, receive_verdict, received_state, stored_table, receive_of, receive_store, receive_records};
ghost use Rattle.words.specs.Layout.{WORDS};
ghost use Rattle.words.specs.Meaning.{state_of};
ghost use Rattle.words.specs.Ready.{Left};
ghost use Rattle.receiving_in_place.specs.NewVerdict.{new_verdict};
ghost use Rattle.receiving_in_place.specs.ReadyWith.{ReadyWith};

use crate::effects::{acks_at, put_received, queue_ack};
use engine::cells::{is_repeat, near_oldest};
use engine::packets::length_ok;
use engine::receiving::{lengths_ok, store_message};
use engine::ring::cell_at;
use engine::sizes::MAX_OFFSET;
use engine::totals::sum_fits;
use engine::{DATA_BYTES, Receiving};
use link::sizes::ACKS;
use msg::ReliableMsg;
use refusal::{Refusal, refuse_unless};
use seq::Seq;
use words::copying::copy;
use words::gates::slot_ok;
use words::layout::WORDS;
use words::receiving::rx_of;
use words::sending::tx_of;

// What is asked of a message with a new number, after what is asked of any.
fn new_verdict(
    words: &[u64; WORDS],
    rx: Receiving,
    slot: u8,
    msg: ReliableMsg,
    seq: Seq,
    len: usize,
) -> Result<(), Refusal>
    requires { rx ≡ (state_of words.now).rx }
    ensures { result ≡ new_verdict (state_of words.now) slot msg seq.0 len }
{
    refuse_unless(seq.past(rx.rx_seq) <= MAX_OFFSET, Refusal::Offset)?;
    refuse_unless(near_oldest(rx, seq), Refusal::Window)?;
    refuse_unless(acks_at(words, slot) < ACKS, Refusal::Acks)?;
    let fits = sum_fits(rx.rxed_reliable_size, len, rx.recv_buffer);
    refuse_unless(fits, Refusal::Buffer)?;
    let known = msg.count() <= tx_of(words).txed_unconsumed;
    refuse_unless(known, Refusal::Consumed)
}

// What is asked of a message in a sound state, with its records.
fn message_verdict(
    words: &[u64; WORDS],
    rx: Receiving,
    records: &[u64],
    slot: u8,
    msg: ReliableMsg,
    seq: Seq,
    len: usize,
) -> Result<(), Refusal>
    requires { (rx ≡ (state_of words.now).rx) × Lent rx (length records.now) }
    ensures { result ≡ message_verdict (state_of words.now) records.now slot msg seq.0 len }
{
    refuse_unless(slot_ok(words, slot), Refusal::Slot)?;
    refuse_unless(length_ok(msg, len), Refusal::Length)?;
    refuse_unless(seq.is_near(rx.rx_seq), Refusal::Far)?;
    if is_repeat(rx, records, seq) {
        return refuse_unless(acks_at(words, slot) < ACKS, Refusal::Acks);
    }
    new_verdict(words, rx, slot, msg, seq, len)
}

// The bytes of a message in its number's cell.
fn keep_bytes(store: &mut [u8], cells: u32, seq: Seq, payload: &[u8])
    requires { (0 < cells) × (cells ≤ 65536) × (length store.old ≡ cells * DATA_BYTES) × (length payload.now ≤ DATA_BYTES) }
    ensures { store.new ≡ copied store.old (cell_start cells seq.0) payload.now }
{
    let start = cell_at(cells, seq) * DATA_BYTES;
    let end = start + payload.len();
    copy(payload, &mut store[start..end]);
}

// A new message that is accepted: its bytes, its record, and what it leaves of the state.
fn receive_new(
    words: &mut [u64; WORDS],
    store: &mut [u8],
    records: &mut [u64],
    rx: Receiving,
    slot: u8,
    msg: ReliableMsg,
    seq: Seq,
    payload: &[u8],
)
    requires words_len { rx ≡ (state_of words.old).rx }
    requires payload_value { receive_verdict (state_of words.old) (length store.old) records.old slot msg seq.0 (length payload.now) ≡ Ok tt }
    requires seq_value { is_repeat (state_of words.old).rx.cells (table_of (state_of words.old).rx records.old) seq.0 ≡ false }
    ensures words_after { state_of words.new ≡ received_state (state_of words.old) records.old slot msg seq.0 (length payload.now) }
    ensures store_after { store.new ≡ copied store.old (cell_start (state_of words.old).rx.cells seq.0) payload.now }
    ensures records_after { records.new ≡ (stored_table (state_of words.old) records.old msg seq.0 (length payload.now)).records }
{
    let next = store_message(rx, records, msg, seq, payload.len() as u32);
    put_received(words, slot, msg, seq, next);
    keep_bytes(store, rx.cells, seq, payload);
}

// Receives a message over a link: a new one's record and bytes go to the number's cell of the record space and of the received store.
pub fn receive(
    words: &mut [u64; WORDS],
    store: &mut [u8],
    records: &mut [u64],
    slot: u8,
    msg: ReliableMsg,
    seq: Seq,
    payload: &[u8],
) -> Result<(), Refusal>
    requires { ReadyWith words.old records.old }
    ensures value { result ≡ (receive_of (state_of words.old) (length store.old) records.old slot msg seq.0 (length payload.now)).outcome }
    ensures words_after { state_of words.new ≡ (receive_of (state_of words.old) (length store.old) records.old slot msg seq.0 (length payload.now)).state }
    ensures store_after { store.new ≡ receive_store (state_of words.old) store.old records.old slot msg seq.0 payload.now }
    ensures records_after { records.new ≡ receive_records (state_of words.old) (length store.old) records.old slot msg seq.0 (length payload.now) }
    ensures left { Left (outcome_told result).number words.old words.new }
{
    let rx = rx_of(words);
    let lent = lengths_ok(rx, store.len(), records.len());
    refuse_unless(lent, Refusal::StoreLength)?;
    message_verdict(words, rx, records, slot, msg, seq, payload.len())?;
    if is_repeat(rx, records, seq) {
        queue_ack(words, slot, seq);
    } else {
        receive_new(words, store, records, rx, slot, msg, seq, payload);
    }
    Ok(())
}
