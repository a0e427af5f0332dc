// Whether a state is sound: what refusal 1 asks of the state handed in.
ghost use Rattle.std.specs.Prelude.{◌≡◌, ◌≤◌};
ghost use Rattle.engine.specs.CellCount.{is_cell_count};
ghost use Rattle.engine.specs.Decide.{soundb, sound_withb};
ghost use Rattle.engine.specs.Found.{first_ok, row_ok, rows_from, distinct_below, receivingb, found_sound};
ghost use Rattle.engine.specs.Sizes.{SLOTS, PACKETS};

use crate::packets::{is_received, tallied};
use crate::received::found_records;
use crate::roster::Roster;
use crate::sizes::{DATA_BYTES, PACKETS, SLOTS};
use crate::state::{Receiving, Sending, State};
use crate::table::first_cell;
use link::LinkRow;
use link::sizes::MAX_TIME;

// The first packet isn't Received.
#[tactic(auto, unfolding(crate::specs::Found::first_ok))]
fn first_ok(tx: Sending) -> bool
    requires { tx.txed_count ≤ PACKETS }
    ensures { result ≡ first_ok tx }
{
    tx.txed_count == 0 || !is_received(tx.txed_packets[first_cell(tx)].status)
}

// A link's unacked bytes are the sum of its Sent data, and its counts and times within their sizes. An empty slot has no link.
#[tactic(auto, unfolding(crate::specs::Found::row_ok))]
pub fn row_ok(row: LinkRow, sum: u32, time: u64) -> bool
    ensures { result ≡ row_ok row sum time }
{
    !row.live || row.txed_unacked_data == sum && row.is_within(time)
}

fn rows_ok(links: [LinkRow; SLOTS], on: [u32; SLOTS], time: u64) -> bool
    ensures { result ≡ rows_from links on time 0 SLOTS }
{
    links
        .iter()
        .zip(&on)
        .all(|(row, sum)| row_ok(*row, *sum, time))
}

// No identity lives twice: nobody below a live slot has its identity.
pub fn distinct(roster: Roster) -> bool
    ensures { result ≡ distinct_below roster SLOTS }
{
    (0..SLOTS).all(|slot| !roster.live[slot] || !roster.lives_before(slot, roster.ids[slot]))
}

// "64 cells times a power of two, up to 65,536 cells".
#[tactic(auto, unfolding(crate::specs::CellCount::is_cell_count))]
pub fn is_cell_count(cells: u32) -> bool
    ensures { result ≡ is_cell_count cells }
{
    matches!(
        cells,
        64 | 128 | 256 | 512 | 1024 | 2048 | 4096 | 8192 | 16384 | 32768 | 65536
    )
}

// The receiving half but for what the records hold: its settings, and the order of its numbers.
#[tactic(auto, unfolding(crate::specs::Found::receivingb))]
pub fn receiving_ok(rx: Receiving) -> bool
    ensures { result ≡ receivingb rx }
{
    let expected = rx.rx_seq.past(rx.rx_oldest);
    let used = rx.rx_end.past(rx.rx_oldest);
    let buffer = rx.recv_buffer;
    let near = expected <= used && used <= rx.cells;
    let most = rx.cells as usize * DATA_BYTES;
    let setting = 1 <= buffer && buffer as usize <= most;
    is_cell_count(rx.cells) && near && rx.rxed_reliable_size <= buffer && setting
}

// What the passes find. A count above PACKETS is told first: a pass goes through as many packets as the count says.
#[tactic(auto, unfolding(crate::specs::Found::found_sound, crate::specs::Found::sendingb, crate::specs::Found::linksb))]
fn found_sound(s: State) -> bool
    ensures { result ≡ found_sound s }
{
    let tx = s.tx;
    if PACKETS < tx.txed_count {
        return false;
    }
    let roster = Roster::of(s.links);
    let t = tallied(tx, roster, s.time);
    let queue = t.queued == tx.resend_count && tx.resend_count <= PACKETS;
    let sums = t.unacked == tx.txed_unacked && t.unconsumable == tx.txed_unconsumable;
    let sending = t.ok && first_ok(tx) && queue && sums;
    let links = rows_ok(s.links, t.on, s.time) && distinct(roster) && s.time <= MAX_TIME;
    sending && receiving_ok(s.rx) && links
}

// Whether the state is sound, but for what the records hold: what the calls judge that don't use them.
pub fn is_sound(s: State) -> bool
    ensures { result ≡ soundb s }
{
    found_sound(s)
}

// Whether the state is sound with these records.
pub fn is_sound_with(s: State, records: &[u64]) -> bool
    ensures { result ≡ sound_withb s records.now }
{
    if !is_sound(s) {
        return false;
    }
    records.len() == s.rx.cells as usize && found_records(s.rx, records)
}
