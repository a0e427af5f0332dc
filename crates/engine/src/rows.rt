// The rows inside the state, and the tests that every call with a slot or a time makes.
ghost use Rattle.std.specs.Prelude.{◌≡◌};
ghost use Rattle.engine.specs.Rows.{row_of, slot_ok, time_ok};
ghost use Rattle.engine.specs.Fields.{with_row, with_time};

use crate::sizes::SLOT_END;
use crate::state::State;
use link::LinkRow;
use link::sizes::MAX_TIME;

// The row of a slot; past the eight, an empty one.
#[tactic(auto, unfolding(crate::specs::Rows::row_of))]
pub fn row_of(s: State, slot: u8) -> LinkRow
    ensures { result ≡ row_of s slot }
{
    match s.links.get(usize::from(slot)) {
        Some(row) => *row,
        None => LinkRow::empty(),
    }
}

// Whether a slot holds a link.
#[tactic(auto, unfolding(crate::specs::Rows::slot_ok))]
pub(crate) fn slot_ok(s: State, slot: u8) -> bool
    ensures { result ≡ slot_ok s slot }
{
    s.links.get(usize::from(slot)).is_some_and(|row| row.live)
}

// Whether a time is neither before the last accepted one nor too late.
#[tactic(auto, unfolding(crate::specs::Rows::time_ok))]
pub(crate) fn time_ok(s: State, time: u64) -> bool
    ensures { result ≡ time_ok s time }
{
    s.time <= time && time <= MAX_TIME
}

// The state with another row in a slot; there are none past the eight.
pub(crate) fn with_row(s: State, slot: u8, row: LinkRow) -> State
    ensures { result ≡ with_row s slot row }
{
    let mut out = s;
    if slot < SLOT_END {
        out.links[usize::from(slot)] = row;
    }
    out
}

pub(crate) fn with_time(s: State, time: u64) -> State
    ensures { result ≡ with_time s time }
{
    State { time, ..s }
}
