// Which links of a lent run of rows are listed as slow.
ghost use Rattle.std.specs.Prelude.{◌≡◌, ◌<◌, []};
ghost use Rattle.engine.specs.Slowness.{slow_if_confirmed, all_slow, over_slots, listed_in, note_in, slow_slots, slow_of, slow_verdict, slow_told, slow_links_of};
ghost use Rattle.refusal.specs.Answers.{told_by};
ghost use Rattle.engine.specs.Sizes.{SLOTS};

use crate::sizes::SLOTS;
use link::LinkRow;
use refusal::Refusal;

// The slots that are listed, lowest first: the first count of these. The places past them are 0. Memory is fixed, and `listed_in` says the count beside.
#[derive(Clone, Copy)]
pub struct SlowLinks {
    pub slots: [u8; SLOTS],
    pub count: usize,
}

// Whether a row, if it is a confirmed link, is slow.
fn is_slow_if_confirmed(row: LinkRow) -> bool
    ensures { result ≡ slow_if_confirmed row }
{
    !row.is_confirmed() || row.is_slow()
}

// Whether every confirmed link is slow.
fn all_slow(rows: [LinkRow; SLOTS]) -> bool
    ensures { result ≡ all_slow rows }
{
    rows.iter().all(|row| is_slow_if_confirmed(*row))
}

fn none_listed() -> SlowLinks
    ensures { result ≡ listed_in [] }
{
    SlowLinks {
        slots: [0; SLOTS],
        count: 0,
    }
}

// What was found, with a slot behind the others where its link is confirmed and above its max_ping.
#[tactic(auto, unfolding(crate::specs::Slowness::note_in))]
fn note(found: SlowLinks, slot: u8, row: LinkRow) -> SlowLinks
    requires { found.count < SLOTS }
    ensures { result ≡ note_in found slot row }
{
    let mut out = found;
    if row.is_confirmed() && row.is_above_max_ping() {
        out.slots[found.count] = slot;
        out.count += 1;
    }
    out
}

// The slots of the confirmed links above their max_ping.
fn list_over(rows: [LinkRow; SLOTS]) -> SlowLinks
    ensures { result ≡ listed_in (over_slots 0 rows) }
{
    let mut found = none_listed();
    for (slot, row) in rows.iter().enumerate() {
        found = note(found, slot as u8, *row);
    }
    found
}

// The slow links among eight rows in slot order.
#[tactic(auto, unfolding(crate::specs::Slowness::slow_of, crate::specs::Slowness::slow_slots))]
pub fn slow_rows(rows: [LinkRow; SLOTS]) -> SlowLinks
    ensures { result ≡ slow_of rows }
{
    if all_slow(rows) {
        return none_listed();
    }
    list_over(rows)
}

// The slow links of a lent run of rows, which is to be eight long. The answer and what it tells are one clause.
pub fn slow(rows: &[LinkRow]) -> Result<SlowLinks, Refusal>
    ensures { (result ≡ slow_links_of rows.now) × (slow_told result ≡ told_by (slow_verdict rows.now) (slow_slots rows.now)) }
{
    match <[LinkRow; SLOTS]>::try_from(rows) {
        Ok(rows) => Ok(slow_rows(rows)),
        Err(_) => Err(Refusal::Slot),
    }
}
