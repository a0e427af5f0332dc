// Reading a recording into a table of its numbers.
ghost use Rattle.std.specs.Prelude.{◌≡◌, ◌≤◌};
ghost use Rattle.comparing.specs.Messages.{body_of, start_of};
ghost use Rattle.comparing.specs.Rows.{Rising};
ghost use Rattle.comparing.specs.Table.{no_numbers, table_of};
ghost use Rattle.comparing.specs.Scanning.{entered_found, next_line, body_left, Scans};

use crate::messages::{Found, read_line, read_start, wait_after};
use crate::table::Table;
use recording::line_end;
use seq::Seq;

// What a recording was found to be, but for the table of its numbers: its start number, and its first bad line.
#[derive(Clone, Copy)]
pub struct Scanned {
    pub start: Seq,
    pub bad: Option<usize>,
}

// Only a whole message with a number is entered.
fn enter_found(input: &[u8], start: Seq, found: Found, table: &mut Table)
    requires { Rising 0 table.old.rows.items }
    ensures { table_of table.new ≡ entered_found input.now start.0 (table_of table.old) found }
{
    match found {
        Found::Holds(m) => table.enter(input, start, m),
        Found::Bad | Found::Awaits(_) | Found::Passes => {}
    }
}

// Where the line after one that ends here begins.
fn next_line(input: &[u8], end: usize) -> usize
    ensures { result ≡ next_line input.now end }
{
    if end < input.len() { end + 1 } else { end }
}

// Reads the lines from a place on, the second line's, into an empty table.
fn scan_body(input: &[u8], start: Seq, from: usize, table: &mut Table) -> Scanned
    requires le_from { 2 ≤ from }
    requires empty { table_of table.old ≡ no_numbers }
    ensures { Scans input.now start.0 (body_left input.now None from 2) result table.new }
{
    let mut at = from;
    let mut line: usize = 2;
    let mut waiting = None;
    // a message is known by the place of its line, so the lines are found by place and not split off
    while at < input.len() {
        let end = line_end(input, at);
        let found = read_line(waiting, &input[at..end], at, line);
        if let Found::Bad = found {
            return Scanned {
                start,
                bad: Some(line),
            };
        }
        enter_found(input, start, found, table);
        waiting = wait_after(found);
        at = next_line(input, end);
        line += 1;
    }
    // an absent payload makes its frame's line bad
    Scanned {
        start,
        bad: waiting.map(|m| m.line),
    }
}

// Reads a whole recording into an empty table. The table is the caller's: it takes 24 KB, and one handed out would be copied at each return.
pub(crate) fn scan(input: &[u8], table: &mut Table) -> Scanned
    requires { table_of table.old ≡ no_numbers }
    ensures { Scans input.now (start_of input.now) (body_of input.now) result table.new }
{
    let end = line_end(input, 0);
    let Some(start) = read_start(&input[..end]) else {
        return Scanned {
            start: Seq(0),
            bad: Some(1),
        };
    };
    scan_body(input, start, next_line(input, end), table)
}
