// The comparison of two recordings.
ghost use Rattle.std.specs.Prelude.{◌≡◌, length, Ok};
ghost use Rattle.comparing.specs.Sizes.{DIFFERENCES};
ghost use Rattle.comparing.specs.Judging.{told_in, starts_in};
ghost use Rattle.comparing.specs.Compared.{compared_of, compared_list, compared_told, comparison_told};
ghost use Rattle.comparing.specs.Comparison.{Scanning, judged_of};

use crate::listing::list_all;
use crate::scanning::{Scanned, scan};
use crate::sizes::DIFFERENCES;
use crate::table::Table;
use refusal::Refusal;
use seq::Seq;

#[derive(Clone, Copy)]
pub enum Side {
    First,
    Second,
}

// What a comparison answers, in tuples still: the public promises of `compare` speak of them.
pub type Compared = Result<(usize, usize, usize), (Refusal, Side, usize)>;

pub type Judged = Result<(), (Refusal, Side, usize)>;

// A refusal where a line is told.
fn told(line: Option<usize>, refusal: Refusal, side: Side) -> Judged
    ensures { result ≡ told_in line refusal side (Ok tt) }
{
    match line {
        None => Ok(()),
        Some(line) => Err((refusal, side, line)),
    }
}

// Two start numbers that differ make the second's line bad.
fn start_differs(a: Seq, b: Seq) -> Option<usize>
    ensures { result ≡ starts_in a.0 b.0 }
{
    if a == b { None } else { Some(1) }
}

// The refusals in their order over both recordings.
fn judge(a: Scanned, x: &Table, b: Scanned, y: &Table) -> Judged
    ensures { result ≡ judged_of a x.now b y.now }
{
    told(a.bad, Refusal::Bytes, Side::First)?;
    told(b.bad, Refusal::Bytes, Side::Second)?;
    let starts = start_differs(a.start, b.start);
    told(starts, Refusal::Bytes, Side::Second)?;
    told(x.far, Refusal::Far, Side::First)?;
    told(y.far, Refusal::Far, Side::Second)?;
    told(x.many, Refusal::Many, Side::First)?;
    told(y.many, Refusal::Many, Side::Second)
}

// Lists where two recordings part that were scanned.
fn compare_scanned(
    first: &[u8],
    second: &[u8],
    a: Scanned,
    x: &Table,
    b: Scanned,
    y: &Table,
    list: &mut [u64],
) -> Compared
    requires list_len { length list.old ≡ DIFFERENCES }
    requires scanning { Scanning first.now a x.now }
    requires scanning_2 { Scanning second.now b y.now }
    ensures value { result ≡ compared_of first.now second.now }
    ensures list_after { list.new ≡ compared_list first.now second.now list.old }
{
    judge(a, x, b, y)?;
    let n = list_all(first, second, a.start, &x.rows, &y.rows, list);
    Ok((n, x.rows.len(), y.rows.len()))
}

// Lists where two recordings part. A refusal leaves the list as it was.
pub fn compare(first: &[u8], second: &[u8], list: &mut [u64; DIFFERENCES]) -> Compared
    ensures value { result ≡ compared_of first.now second.now }
    ensures result_value { compared_told result ≡ comparison_told first.now second.now }
    ensures list_after { list.new ≡ compared_list first.now second.now list.old }
{
    let mut x = Table::new();
    let mut y = Table::new();
    let a = scan(first, &mut x);
    let b = scan(second, &mut y);
    compare_scanned(first, second, a, &x, b, &y, list)
}
