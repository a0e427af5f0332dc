// The list as text: one line a difference, a line for a refusal, and one that sums up. It is put at a place in lent memory, since what is
// promised is each byte, of which `write!` says nothing.
ghost use Rattle.std.specs.Prelude.{[], ◌∷◌, ◌≡◌, ◌==◌, length, count_by, take, drop};
ghost use Rattle.text.specs.Put.{Puts, decimal_text};
ghost use Rattle.comparing.specs.declared.listing.Difference.TheVariants.{Differ, Begins};
ghost use Rattle.comparing.specs.Words.{kind_in};
ghost use Rattle.comparing.specs.Writing.{number_parts, what_parts, side_text, count_parts, line_text, refused_text, kinds_in, equal_in, summary_text, starts_with};

use crate::comparison::Side;
use crate::listing::{
    BEGINS, CONFLICT_FIRST, CONFLICT_SECOND, DIFFER, Difference, FIRST, SECOND, difference_of,
    kind_in, number_in,
};
use crate::sizes::DIFFERENCES;
use refusal::Refusal;
use text::{put, put_decimal, put_hex};

// The bytes that a line has room for, and the line that sums up.
pub const LINE: usize = 64;

pub const SUMMARY: usize = 320;

// A number in eight digits.
fn put_number(n: u32, out: &mut [u8], at: usize) -> usize
    ensures { Puts (number_parts n) out.old at result out.new }
{
    let [a, b, c, d] = n.to_be_bytes();
    let at = put_hex(a, out, at);
    let at = put_hex(b, out, at);
    let at = put_hex(c, out, at);
    put_hex(d, out, at)
}

// A number in decimal, and what stands behind it.
fn put_count(count: usize, what: &[u8], out: &mut [u8], at: usize) -> usize
    ensures { Puts (decimal_text count ∷ what.now ∷ []) out.old at result out.new }
{
    let a = put_decimal(count as u64, out, at);
    put(what, out, a)
}

fn put_differ(place: usize, x: u8, y: u8, out: &mut [u8; LINE], at: usize) -> usize
    ensures { Puts (what_parts (Differ place x y)) out.old at result out.new }
{
    let a = put(b" differ ", out, at);
    let b = put_count(place, b" ", out, a);
    let c = put_hex(x, out, b);
    let d = put(b" ", out, c);
    let e = put_hex(y, out, d);
    put(b"\n", out, e)
}

fn put_begins(length: usize, out: &mut [u8; LINE], at: usize) -> usize
    ensures { Puts (what_parts (Begins length)) out.old at result out.new }
{
    let a = put(b" begins ", out, at);
    put_count(length, b"\n", out, a)
}

fn put_what(what: Difference, out: &mut [u8; LINE], at: usize) -> usize
    ensures { Puts (what_parts what) out.old at result out.new }
{
    match what {
        Difference::First => put(b" first\n", out, at),
        Difference::Second => put(b" second\n", out, at),
        Difference::Differ(place, x, y) => put_differ(place, x, y, out, at),
        Difference::Begins(length) => put_begins(length, out, at),
        Difference::ConflictFirst => put(b" conflict first\n", out, at),
        Difference::ConflictSecond => put(b" conflict second\n", out, at),
    }
}

// Writes the line of a difference, and says how long it is.
pub fn write_difference(word: u64, out: &mut [u8; LINE]) -> usize
    ensures value { result ≡ length (line_text word) }
    ensures out_after { out.new ≡ starts_with (line_text word) out.old }
{
    let number = number_in(word);
    let what = difference_of(word);
    let at = put_number(number.0, out, 0);
    put_what(what, out, at)
}

fn put_side(side: Side, out: &mut [u8; LINE], at: usize) -> usize
    ensures { Puts (side_text side ∷ []) out.old at result out.new }
{
    match side {
        Side::First => put(b" first ", out, at),
        Side::Second => put(b" second ", out, at),
    }
}

// Writes the line of a refusal, and says how long it is.
pub fn write_refused(refusal: Refusal, side: Side, line: usize, out: &mut [u8; LINE]) -> usize
    ensures value { result ≡ length (refused_text refusal side line) }
    ensures out_after { out.new ≡ starts_with (refused_text refusal side line) out.old }
{
    let a = put(b"refused ", out, 0);
    let b = put_decimal(u64::from(refusal.number()), out, a);
    let c = put_side(side, out, b);
    put_count(line, b"\n", out, c)
}

// How many words are of a kind.
fn count_in(words: &[u64], kind: u64) -> usize
    ensures { result ≡ count_by (λ word. kind_in word == kind) words.now }
{
    words.iter().filter(|word| kind_in(**word) == kind).count()
}

// How many of the first n differences are of a kind.
pub fn count_kind(list: &[u64], n: usize, kind: u64) -> usize
    ensures { result ≡ kinds_in kind (take n list.now) }
{
    count_in(&list[..n.min(list.len())], kind)
}

// The numbers that both have with equal messages.
fn equal_in(list: &[u64], n: usize, first: usize) -> usize
    ensures { result ≡ equal_in (take n list.now) first }
{
    first
        .saturating_sub(count_kind(list, n, FIRST))
        .saturating_sub(count_kind(list, n, DIFFER))
        .saturating_sub(count_kind(list, n, BEGINS))
}

// The numbers of each side, and those that are equal.
fn put_sides(list: &[u64], n: usize, first: usize, second: usize, out: &mut [u8]) -> usize
    ensures { Puts (take 7 (count_parts (take n list.now) first second)) out.old 0 result out.new }
{
    let a = put(b"numbers: ", out, 0);
    let b = put_count(first, b" first, ", out, a);
    let c = put_count(second, b" second; ", out, b);
    put_count(equal_in(list, n, first), b" equal, ", out, c)
}

// The count of a kind, and what stands behind it.
fn put_kind(
    list: &[u64],
    n: usize,
    kind: u64,
    what: &[u8],
    out: &mut [u8; SUMMARY],
    at: usize,
) -> usize
    ensures { Puts (decimal_text (kinds_in kind (take n list.now)) ∷ what.now ∷ []) out.old at result out.new }
{
    put_count(count_kind(list, n, kind), what, out, at)
}

// The differences of each kind, behind the counts of the sides.
fn put_kinds(list: &[u64], n: usize, out: &mut [u8; SUMMARY], at: usize) -> usize
    ensures { Puts (drop 7 (count_parts (take n list.now) 0 0)) out.old at result out.new }
{
    let a = put_kind(list, n, FIRST, b" only first, ", out, at);
    let b = put_kind(list, n, SECOND, b" only second, ", out, a);
    let c = put_kind(list, n, DIFFER, b" differ, ", out, b);
    let d = put_kind(list, n, BEGINS, b" begin alike; conflicts: ", out, c);
    let e = put_kind(list, n, CONFLICT_FIRST, b" first, ", out, d);
    put_kind(list, n, CONFLICT_SECOND, b" second\n", out, e)
}

// Writes the line that sums up a comparison, and says how long it is.
pub fn write_summary(
    list: &[u64; DIFFERENCES],
    n: usize,
    first: usize,
    second: usize,
    out: &mut [u8; SUMMARY],
) -> usize
    ensures value { result ≡ length (summary_text (take n list.now) first second) }
    ensures out_after { out.new ≡ starts_with (summary_text (take n list.now) first second) out.old }
{
    if n == 0 {
        let a = put(b"equal: ", out, 0);
        return put_count(first, b" numbers\n", out, a);
    }
    let a = put_sides(list, n, first, second, out);
    put_kinds(list, n, out, a)
}
