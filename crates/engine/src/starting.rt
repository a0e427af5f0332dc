// The fresh state.
ghost use Rattle.std.specs.Prelude.{◌≡◌, [], length, replicate};
ghost use Rattle.refusal.specs.Answers.{told_by};
ghost use Rattle.engine.specs.Answer.{outcome_told};
ghost use Rattle.engine.specs.Starting.{fresh_tx, fresh_rx, fresh_state, fresh_verdict, fresh_of, fresh_records, RefusedUnsound};

use crate::answer::Changed;
use crate::sizes::{DATA_BYTES, PACKETS, SLOTS};
use crate::sound::is_cell_count;
use crate::state::{InFlight, Receiving, Sending, SentReliable, SentReliableStatus, State};
use link::LinkRow;
use msg::ReliableMsg;
use refusal::{Refusal, refuse_unless};
use seq::Seq;

#[tactic(auto, unfolding(crate::specs::Starting::fresh_tx))]
fn fresh_tx(start: Seq) -> Sending
    ensures { result ≡ fresh_tx start.0 }
{
    let status = SentReliableStatus::Sent(InFlight::new(0, 0, 0, false));
    let none = SentReliable::new(Seq::ZERO, ReliableMsg::Data, 0, status);
    Sending {
        tx_seq: start,
        txed_packets: [none; PACKETS],
        txed_count: 0,
        resend_queue: [Seq::ZERO; PACKETS],
        resend_count: 0,
        txed_unacked: 0,
        txed_unconsumed: 0,
        txed_unconsumable: 0,
        txed_last_consumed: start.sub(1),
        send_finish_sent: false,
        write_closed: false,
    }
}

#[tactic(auto, unfolding(crate::specs::Starting::fresh_rx))]
fn fresh_rx(start: Seq, recv_buffer: u32, cells: u32) -> Receiving
    ensures { result ≡ fresh_rx start.0 recv_buffer cells }
{
    Receiving {
        rx_seq: start,
        rx_oldest: start,
        rxed_reliable_size: 0,
        rxed_reliable_consumed: 0,
        recv_buffer,
        cells,
        rx_end: start,
    }
}

#[tactic(auto, unfolding(crate::specs::Starting::fresh_state))]
fn fresh_state(start: Seq, recv_buffer: u32, cells: u32) -> State
    ensures { result ≡ fresh_state start.0 recv_buffer cells }
{
    State {
        links: [LinkRow::empty(); SLOTS],
        tx: fresh_tx(start),
        rx: fresh_rx(start, recv_buffer, cells),
        time: 0,
        read_open: true,
    }
}

#[tactic(auto, unfolding(crate::specs::Starting::fresh_verdict))]
pub fn fresh_verdict(recv_buffer: u32, cells: u32, records: usize) -> Result<(), Refusal>
    ensures { result ≡ fresh_verdict recv_buffer cells records }
{
    let most = cells as usize * DATA_BYTES;
    let within = 1 <= recv_buffer && recv_buffer as usize <= most;
    refuse_unless(is_cell_count(cells) && within, Refusal::Setting)?;
    refuse_unless(records == cells as usize, Refusal::StoreLength)
}

// Leaves every record empty, whatever it held.
pub fn empty_records(records: &mut [u64])
    ensures { records.new ≡ replicate (length records.old) 0 }
{
    records.fill(0);
}

// A fresh state of so many cells, and its records, which are empty then. The state that comes with a refusal has no cells and no buffer: it is
// not sound, and every call refuses it.
#[tactic(auto, unfolding(crate::specs::Starting::fresh_of, crate::specs::Starting::fresh_records))]
pub fn fresh(start: Seq, recv_buffer: u32, cells: u32, records: &mut [u64]) -> Changed
    ensures value { result ≡ fresh_of start.0 recv_buffer cells (length records.old) }
    ensures outcome_value { outcome_told result.outcome ≡ told_by (fresh_verdict recv_buffer cells (length records.old)) [] }
    ensures refused_unsound { RefusedUnsound result }
    ensures records_after { records.new ≡ fresh_records recv_buffer cells records.old }
{
    match fresh_verdict(recv_buffer, cells, records.len()) {
        Err(e) => Changed {
            outcome: Err(e),
            state: fresh_state(start, 0, 0),
        },
        Ok(()) => {
            empty_records(records);
            Changed {
                outcome: Ok(()),
                state: fresh_state(start, recv_buffer, cells),
            }
        }
    }
}
