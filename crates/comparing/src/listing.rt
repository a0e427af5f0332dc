// The list of differences, in rising order.
ghost use Rattle.std.specs.Prelude.{◌≡◌, [], ◌∷◌, ◌+◌, ◌*◌, ◌^◌, ◌≤◌, ◌<◌, length, drop};
ghost use Rattle.seq.specs.Numbers.{seq_of};
ghost use Rattle.comparing.specs.Sizes.{DIFFERENCES, NUMBERS};
ghost use Rattle.comparing.specs.Ranks.{number_of};
ghost use Rattle.comparing.specs.Rows.{Rising, held_first};
ghost use Rattle.comparing.specs.Differences.{conflict_as, content_as, part_as, list_below};
ghost use Rattle.comparing.specs.Compared.{words_of};
ghost use Rattle.comparing.specs.Says.{Says, standing_held, flag_held, held_differences};
ghost use Rattle.comparing.specs.Listing.{words_for, Pushed, has_of, place_of, rank_left};
ghost use Rattle.comparing.specs.Words.{kind_of, detail_of, word_of, number_in, kind_in, difference_in, Fits};

use crate::runs::{Content, compare_runs};
use crate::table::{Held, Row};
use seq::Seq;

// How two recordings differ on a number.
#[derive(Clone, Copy)]
pub enum Difference {
    // only in the first, or only in the second
    First,
    Second,
    // in both: the place of the first byte that differs, and both bytes
    Differ(usize, u8, u8),
    // in both, one a beginning of the other: the shorter length
    Begins(usize),
    // a repeat has other content
    ConflictFirst,
    ConflictSecond,
}

// The kinds of difference, as numbers still: the public `kind_in` and `count_kind` promise them so.
pub const FIRST: u64 = 0;

pub const SECOND: u64 = 1;

pub const DIFFER: u64 = 2;

pub const BEGINS: u64 = 3;

pub const CONFLICT_FIRST: u64 = 4;

pub const CONFLICT_SECOND: u64 = 5;

// A difference is one number in the list: the message's number, and in its low 31 bits three for the kind, twelve for a place or a
// length, and both bytes.
fn kind_of(d: Difference) -> u64
    ensures { result ≡ kind_of d }
{
    match d {
        Difference::First => FIRST,
        Difference::Second => SECOND,
        Difference::Differ(_, _, _) => DIFFER,
        Difference::Begins(_) => BEGINS,
        Difference::ConflictFirst => CONFLICT_FIRST,
        Difference::ConflictSecond => CONFLICT_SECOND,
    }
}

fn detail_of(d: Difference) -> u64
    requires { Fits d }
    ensures { result ≡ detail_of d }
{
    match d {
        Difference::First
        | Difference::Second
        | Difference::ConflictFirst
        | Difference::ConflictSecond => 0,
        Difference::Differ(place, x, y) => {
            place as u64 * 65536 + u64::from(x) * 256 + u64::from(y)
        }
        Difference::Begins(length) => length as u64 * 65536,
    }
}

fn word_of(number: Seq, d: Difference) -> u64
    requires { Fits d }
    ensures { result ≡ word_of number.0 d }
{
    (u64::from(number.0) * 8 + kind_of(d)) * 268435456 + detail_of(d)
}

// The number of the message that a difference is about.
pub fn number_in(word: u64) -> Seq
    ensures { result ≡ seq_of (number_in word) }
{
    Seq((word / 2147483648 % 4294967296) as u32)
}

pub fn kind_in(word: u64) -> u64
    ensures { result ≡ kind_in word }
{
    word / 268435456 % 8
}

// What a difference of the list is.
pub fn difference_of(word: u64) -> Difference
    ensures { result ≡ difference_in word }
{
    let place = (word / 65536 % 4096) as usize;
    let x = (word / 256 % 256) as u8;
    let y = (word % 256) as u8;
    match kind_in(word) {
        FIRST => Difference::First,
        SECOND => Difference::Second,
        DIFFER => Difference::Differ(place, x, y),
        BEGINS => Difference::Begins(place),
        CONFLICT_FIRST => Difference::ConflictFirst,
        _ => Difference::ConflictSecond,
    }
}

// Puts a difference behind the first n, and says how many there are then. The list is memory that the caller of `compare` lends.
fn push(list: &mut [u64], n: usize, number: Seq, d: Difference) -> usize
    requires n_in_bounds { n < length list.old }
    requires fits { Fits d }
    ensures { Pushed (words_for number.0 (d ∷ [])) list.old n result list.new }
{
    list[n] = word_of(number, d);
    n + 1
}

// The conflict of a recording on a number, if it has one.
fn list_conflict(list: &mut [u64], n: usize, number: Seq, held: Held, d: Difference) -> usize
    requires held_in_bounds { n + has_of held ≤ length list.old }
    requires fits { Fits d }
    ensures { Pushed (words_for number.0 (conflict_as (flag_held held) d)) list.old n result list.new }
{
    match held {
        None => n,
        Some((_, is_conflict)) => {
            if is_conflict {
                push(list, n, number, d)
            } else {
                n
            }
        }
    }
}

// Where the standing messages of a number part, which both have.
fn list_content(list: &mut [u64], n: usize, number: Seq, content: Content) -> usize
    requires n_in_bounds { n < length list.old }
    requires content_bound { place_of content < 4096 }
    ensures { Pushed (words_for number.0 (content_as content)) list.old n result list.new }
{
    match content {
        Content::Equal => n,
        Content::Differ(place, x, y) => push(list, n, number, Difference::Differ(place, x, y)),
        Content::Begins(length) => push(list, n, number, Difference::Begins(length)),
    }
}

// What the first has of a number against what the second has of it.
fn list_held(
    first: &[u8],
    second: &[u8],
    list: &mut [u64],
    n: usize,
    number: Seq,
    a: Held,
    b: Held,
) -> usize
    requires { n + (has_of a + has_of b) ≤ length list.old }
    ensures { Pushed (words_for number.0 (part_as (standing_held first.now a) (standing_held second.now b))) list.old n result list.new }
{
    match a {
        None => match b {
            None => n,
            Some((_, _)) => push(list, n, number, Difference::Second),
        },
        Some((i, _)) => match b {
            None => push(list, n, number, Difference::First),
            Some((j, _)) => {
                let content = compare_runs(first, i, second, j);
                list_content(list, n, number, content)
            }
        },
    }
}

// All differences on a number: the conflicts before the rest.
fn list_number(
    first: &[u8],
    second: &[u8],
    list: &mut [u64],
    n: usize,
    number: Seq,
    a: Held,
    b: Held,
) -> usize
    requires { n + (has_of a + has_of b) * 2 ≤ length list.old }
    ensures { Pushed (words_for number.0 (held_differences first.now second.now a b)) list.old n result list.new }
{
    let m = list_conflict(list, n, number, a, Difference::ConflictFirst);
    let l = list_conflict(list, m, number, b, Difference::ConflictSecond);
    list_held(first, second, list, l, number, a, b)
}

// What the first of some rows has, if it is of this rank.
fn held_first(rows: &[Row], rank: usize) -> Held
    ensures { result ≡ held_first rank rows.now }
{
    let row = rows.first()?;
    if row.rank == rank {
        Some((row.place, row.is_conflict))
    } else {
        None
    }
}

// How many rows a table has of a number.
fn has(held: Held) -> usize
    ensures { result ≡ has_of held }
{
    usize::from(held.is_some())
}

// The number of a rank.
fn number_of(start: Seq, rank: usize) -> Seq
    requires { rank < 2 ^ 32 }
    ensures { result ≡ seq_of (number_of start.0 rank) }
{
    let middle = start.add(0x8000_0000);
    middle.add(rank as u32)
}

// The least rank that is left in two tables.
fn next_rank(a: &[Row], b: &[Row]) -> Option<usize>
    ensures { result ≡ rank_left a.now b.now }
{
    let Some(x) = a.first() else {
        return b.first().map(|y| y.rank);
    };
    let Some(y) = b.first() else {
        return Some(x.rank);
    };
    Some(if x.rank < y.rank { x.rank } else { y.rank })
}

// Goes through both tables side by side.
pub(crate) fn list_all(
    first: &[u8],
    second: &[u8],
    start: Seq,
    a: &[Row],
    b: &[Row],
    list: &mut [u64],
) -> usize
    requires a_len { (length a.now ≤ NUMBERS) × (length b.now ≤ NUMBERS) × (length list.old ≡ DIFFERENCES) }
    requires rising { Rising 0 a.now × Rising 0 b.now }
    requires says { Says first.now second.now start.0 a.now b.now }
    ensures pushed { Pushed (words_of (list_below first.now second.now start.0 (2 ^ 32))) list.old 0 result list.new }
    ensures upper_bound { result ≤ DIFFERENCES }
{
    let mut x = a;
    let mut y = b;
    let mut n: usize = 0;
    while let Some(rank) = next_rank(x, y) {
        let held_x = held_first(x, rank);
        let held_y = held_first(y, rank);
        let number = number_of(start, rank);
        n = list_number(first, second, list, n, number, held_x, held_y);
        x = &x[has(held_x)..];
        y = &y[has(held_y)..];
    }
    n
}
