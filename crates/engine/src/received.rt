// One pass over the records in use gathers what Sound asks of them.
ghost use Rattle.std.specs.Prelude.{◌≡◌, length};
ghost use Rattle.engine.specs.Received.{table_of};
ghost use Rattle.engine.specs.CellTally.{Lent, Judged, cell_ok, word_ok, records_fine, newest_ok, found_records};

use crate::cells::held_at;
use crate::packets::length_ok;
use crate::records::{held_of, is_data_record, is_ready_kind, is_record, length_in};
use crate::ring::{cell_at, next_cell};
use crate::state::{Held, Receiving};

// Whether a cell is well: k numbers past the oldest, where the next expected is `expected` past it.
#[tactic(auto, unfolding(crate::specs::CellTally::cell_ok))]
fn cell_ok(held: Held, k: usize, expected: usize) -> bool
    ensures { result ≡ cell_ok held k expected }
{
    match held {
        None => k != 0 || expected == 0,
        Some((msg, len)) => {
            let placed = expected < k || k < expected && is_ready_kind(msg);
            placed && length_ok(msg, len as usize)
        }
    }
}

// Whether a record is well, by what it says.
fn any_ok(word: u64, k: usize, expected: usize) -> bool
    ensures { result ≡ word_ok word k expected }
{
    is_record(word) && cell_ok(held_of(word), k, expected)
}

// .. where a Data is told first, by its word alone, since most records are a Data's.
fn record_ok(word: u64, k: usize, expected: usize) -> bool
    ensures { result ≡ word_ok word k expected }
{
    if is_data_record(word) && k != expected {
        return true;
    }
    any_ok(word, k, expected)
}

// Whether the records in use, from the oldest number on, are well, and hold as many bytes as is said. No other is touched. The sum goes round
// at 2^32, which a table that is well cannot reach.
fn records_ok(rx: Receiving, records: &[u64]) -> bool
    requires { Judged rx (length records.now) }
    ensures { result ≡ records_fine (table_of rx records.now) }
{
    let cells = rx.cells;
    let oldest = rx.rx_oldest;
    let expected = rx.rx_seq.past(oldest) as usize;
    let used = rx.rx_end.past(oldest) as usize;
    let mut size: u32 = 0;
    let mut at = cell_at(cells, oldest);
    for k in 0..used {
        let word = records[at];
        if !record_ok(word, k, expected) {
            return false;
        }
        size = size.wrapping_add(length_in(word));
        at = next_cell(cells as usize, at);
    }
    size == rx.rxed_reliable_size
}

// Whether the last cell in use holds a message, where any is in use from the next expected number on.
#[tactic(auto, unfolding(crate::specs::CellTally::newest_ok))]
fn newest_ok(rx: Receiving, records: &[u64]) -> bool
    requires { Lent rx (length records.now) }
    ensures { result ≡ newest_ok rx.cells (table_of rx records.now) }
{
    rx.rx_end == rx.rx_seq || held_at(rx, records, rx.rx_end.sub(1)).is_some()
}

// What the pass finds.
#[tactic(auto, unfolding(crate::specs::CellTally::found_records))]
pub fn found_records(rx: Receiving, records: &[u64]) -> bool
    requires { Judged rx (length records.now) }
    ensures { result ≡ found_records (table_of rx records.now) }
{
    records_ok(rx, records) && newest_ok(rx, records)
}
