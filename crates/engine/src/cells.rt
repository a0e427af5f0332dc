// The receive table: what a number's cell holds, which cells come into use, and how consecutive messages advance the next expected number.
ghost use Rattle.std.specs.Prelude.{◌≡◌, ◌%◌, ◌<◌, ◌≤◌, false, length, replicate};
ghost use Rattle.seq.specs.Distance.{past};
ghost use Rattle.engine.specs.Ring.{refilled};
ghost use Rattle.engine.specs.Received.{table_of, held_at, is_used, cell_of};
ghost use Rattle.engine.specs.CellTally.{Lent};
ghost use Rattle.engine.specs.Cells.{near_oldest, is_repeat, can_advance, oldest_after, passed_over, advanced, end_after, opened_records};

use crate::records::{held_of, kept_record};
use crate::ring::{cell_at, next_cell};
use crate::state::{Held, Receiving};
use seq::Seq;

// What the number's record says. The receiving half and its records are passed side by side, with `Lent`: a struct of both is no plainer, since the
// public calls here and in place keep both parameters and their clause, and each of them and each turn of a loop would make it anew.
#[tactic(auto, unfolding(crate::specs::Received::held_at))]
pub fn held_at(rx: Receiving, records: &[u64], seq: Seq) -> Held
    requires { Lent rx (length records.now) }
    ensures { result ≡ held_at rx.cells records.now seq.0 }
{
    let at = cell_at(rx.cells, seq);
    held_of(records[at])
}

// Whether the number's cell is in use.
#[tactic(auto, unfolding(crate::specs::Received::is_used))]
fn is_used(rx: Receiving, seq: Seq) -> bool
    ensures { result ≡ is_used rx seq.0 }
{
    seq.past(rx.rx_oldest) < rx.rx_end.past(rx.rx_oldest)
}

// What the number's cell holds: nothing where it isn't in use, whatever its record says.
#[tactic(auto, unfolding(crate::specs::Received::cell_of))]
fn cell_of(rx: Receiving, records: &[u64], seq: Seq) -> Held
    requires { Lent rx (length records.now) }
    ensures { result ≡ cell_of rx.cells (table_of rx records.now) seq.0 }
{
    if !is_used(rx, seq) {
        return None;
    }
    held_at(rx, records, seq)
}

// Whether the number is less than the cell count past the one that refusal 12 counts from.
#[tactic(auto, unfolding(crate::specs::Cells::near_oldest))]
pub fn near_oldest(rx: Receiving, seq: Seq) -> bool
    ensures { result ≡ near_oldest rx.cells rx seq.0 }
{
    seq.past(rx.rx_oldest) < rx.cells
}

// Whether the number was received already: it is before the next expected, or held.
#[tactic(auto, unfolding(crate::specs::Cells::is_repeat))]
pub fn is_repeat(rx: Receiving, records: &[u64], seq: Seq) -> bool
    requires { Lent rx (length records.now) }
    ensures { result ≡ is_repeat rx.cells (table_of rx records.now) seq.0 }
{
    seq.is_before(rx.rx_seq) || cell_of(rx, records, seq).is_some()
}

// Whether the next expected message is there.
#[tactic(auto, unfolding(crate::specs::Cells::can_advance))]
fn can_advance(rx: Receiving, records: &[u64]) -> bool
    requires { Lent rx (length records.now) }
    ensures { result ≡ can_advance rx.cells (table_of rx records.now) }
{
    rx.rx_seq != rx.rx_end && held_at(rx, records, rx.rx_seq).is_some()
}

// The oldest number once seq is passed: it moves along only while nothing is ready.
fn oldest_after(oldest: Seq, seq: Seq, next: Seq, ready: bool) -> Seq
    ensures { result ≡ oldest_after oldest seq next ready }
{
    if !ready && oldest == seq {
        next
    } else {
        oldest
    }
}

// The next expected message is passed.
#[tactic(auto, unfolding(crate::specs::Cells::passed_over))]
fn pass(rx: Receiving, records: &mut [u64]) -> Receiving
    requires { Lent rx (length records.old) }
    ensures value { result ≡ (passed_over rx.cells (table_of rx records.old)).rx }
    ensures records_after { records.new ≡ (passed_over rx.cells (table_of rx records.old)).records }
{
    let seq = rx.rx_seq;
    let at = cell_at(rx.cells, seq);
    let stays = kept_record(records[at]);
    records[at] = stays;
    let ready = held_of(stays).is_some();
    let next = seq.add(1);
    Receiving {
        rx_seq: next,
        rx_oldest: oldest_after(rx.rx_oldest, seq, next, ready),
        ..rx
    }
}

// Consecutive messages advance the next expected number. `handing_out::skip` goes on in the same way, and stays apart: one function over closures is no
// plainer, since the records that a closure writes, and that they fit, would have to stand in its contract.
pub fn advance(rx: Receiving, records: &mut [u64]) -> Receiving
    requires { Lent rx (length records.old) }
    ensures value { result ≡ (advanced rx.cells rx.cells (table_of rx records.old)).rx }
    ensures records_after { records.new ≡ (advanced rx.cells rx.cells (table_of rx records.old)).records }
{
    let mut out = rx;
    for _ in 0..rx.cells {
        if !can_advance(out, records) {
            return out;
        }
        out = pass(out, records);
    }
    out
}

// Empties so many cells from a number on.
fn empty_cells(cells: u32, records: &mut [u64], from: Seq, count: u32)
    requires { (0 < cells) × (length records.old ≡ cells) × (count ≤ cells) }
    ensures { records.new ≡ refilled cells records.old (from.0 % cells) (replicate count 0) }
{
    let mut at = cell_at(cells, from);
    for _ in 0..count {
        records[at] = 0;
        at = next_cell(cells as usize, at);
    }
}

// A number at or past the end comes into use, and those before it from the end on, whose cells are emptied: the end after that.
#[tactic(auto, unfolding(crate::specs::Cells::end_after, crate::specs::Cells::opened_records))]
pub fn open_cells(rx: Receiving, records: &mut [u64], seq: Seq) -> Seq
    requires { Lent rx (length records.old) × (is_used rx seq.0 ≡ false → past seq.0 rx.rx_end.0 ≤ rx.cells) }
    ensures value { result ≡ end_after rx seq.0 }
    ensures records_after { records.new ≡ opened_records rx.cells (table_of rx records.old) seq.0 }
{
    let end = rx.rx_end;
    if is_used(rx, seq) {
        return end;
    }
    empty_cells(rx.cells, records, end, seq.past(end));
    seq.add(1)
}
