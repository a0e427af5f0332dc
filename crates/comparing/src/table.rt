// The numbers of a recording in rising order, but for those far from its start number, each with the place of its first message.
ghost use Rattle.std.specs.Prelude.{◌≡◌, ◌≤◌, ◌<◌, length, get_or};
ghost use Rattle.comparing.specs.Ranks.{rank_by};
ghost use Rattle.comparing.specs.Rows.{Rising, no_row};
ghost use Rattle.comparing.specs.Table.{no_numbers, repeated, table_of, added, entered};

use crate::messages::Message;
use crate::runs::{Content, compare_runs};
use crate::sizes::NUMBERS;
use arrayvec::ArrayVec;
use seq::Seq;

// What a table has of a number.
#[derive(Clone, Copy, Default)]
pub struct Row {
    // ranks rise as the signed distance from the start number does
    pub rank: usize,
    // of its first message
    pub place: usize,
    // a repeat has other content
    pub is_conflict: bool,
}

// The place of a number's first message, and whether a repeat has other content.
pub type Held = Option<(usize, bool)>;

// Rows of rising ranks, and the lines of the first far message and of the first number past 1,024.
#[derive(Drop)]
pub struct Table {
    pub rows: ArrayVec<Row, NUMBERS>,
    pub far: Option<usize>,
    pub many: Option<usize>,
}

// The rank of a number by its signed distance from the start number: ranks rise as the distance does.
fn rank(d: i32) -> usize
    ensures { result ≡ rank_by d }
{
    (d as i64 + 0x8000_0000) as usize
}

// A repeat of the number of row i: the first stands, and other content is a conflict.
fn repeat(input: &[u8], rows: &mut [Row], i: usize, at: usize)
    requires { i < length rows.old }
    ensures { rows.new ≡ repeated input.now (get_or rows.old i no_row).place at i rows.old }
{
    if let Content::Equal = compare_runs(input, rows[i].place, input, at) {
        return;
    }
    rows[i].is_conflict = true;
}

impl Table {
    pub(crate) fn new() -> Table
        ensures { table_of result ≡ no_numbers }
    {
        Table {
            rows: ArrayVec::new(),
            far: None,
            many: None,
        }
    }

    // A number that the table does not have, for row i: past 1,024 its line is told.
    fn add(&mut self, i: usize, rank: usize, m: Message)
        requires { i ≤ length self.old.rows.items }
        ensures { table_of self.new ≡ added i rank m (table_of self.old) }
    {
        if self.rows.is_full() {
            self.many = self.many.or(Some(m.line));
            return;
        }
        self.rows.insert(
            i,
            Row {
                rank,
                place: m.at,
                is_conflict: false,
            },
        );
    }

    // Enters a message: a number that the table has is a repeat. A number far from the start number has no rank: its line is told.
    pub(crate) fn enter(&mut self, input: &[u8], start: Seq, m: Message)
        requires { Rising 0 self.old.rows.items }
        ensures { table_of self.new ≡ entered input.now start.0 (table_of self.old) m }
    {
        let Some(distance) = m.number.distance(start) else {
            self.far = self.far.or(Some(m.line));
            return;
        };
        let rank = rank(distance);
        match self.rows.binary_search_by_key(&rank, |row| row.rank) {
            Ok(i) => repeat(input, &mut self.rows, i, m.at),
            Err(i) => self.add(i, rank, m),
        }
    }
}
