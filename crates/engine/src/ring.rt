// Going round a table.
ghost use Rattle.std.specs.Prelude.{◌≡◌, ◌%◌, ◌<◌};
ghost use Rattle.engine.specs.Ring.{next_cell};

use seq::Seq;

// The cell after another of so many cells, going round. The sum goes round too, so that one test is enough.
pub fn next_cell(cells: usize, at: usize) -> usize
    ensures { result ≡ next_cell cells at }
{
    let next = at.wrapping_add(1);
    if next < cells { next } else { 0 }
}

// The cell of a number in the receive table.
pub fn cell_at(cells: u32, seq: Seq) -> usize
    requires { 0 < cells }
    ensures { result ≡ seq.0 % cells }
{
    (seq.0 % cells) as usize
}
