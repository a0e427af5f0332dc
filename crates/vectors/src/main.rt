// Compares the crate seq with the original Rust code, whose answers oracle/seq-vectors wrote to the file stdin. A line,
//
//     AAAAAAAA BBBBBBBB SSSSSSSS DDDDDDDD dddddddd O
//
// has the numbers a and b, the number b past a, the number b before a, the signed distance from b to a, and how a stands
// to b: `<`, `=` or `>`. Numbers less than 2^30 apart have one order on both sides. Of the others the crate seq says that
// they are far and has no order for them, where the original has one: each such pair is written, so that the file stdout
// shows it.
#![tactic(auto)]

ghost use Rattle.std.specs.Prelude.{◌+◌, ◌≤◌, ◌<◌};

use seq::Seq;
use std::cmp::Ordering;

const STDIN_FILENO: i32 = 0;

const STDOUT_FILENO: i32 = 1;

// The bytes of a line, its line feed with it.
const LINE: usize = 47;

// The bytes of its first two numbers.
const PAIR: usize = 17;

// The column of the order.
const ORDER: usize = 45;

// What a line shows.
#[derive(Clone, Copy)]
enum Found {
    Alike,
    // all is alike but the order, of which there is none here
    Far,
    // only the order is another
    Parts,
    Differs,
    Bad,
}

// How many lines showed what.
#[derive(Clone, Copy, Default)]
struct Tally {
    compared: u64,
    differing: u64,
    parting: u64,
    far: u64,
}

impl Tally {
    fn with(self, found: Found) -> Self
        ensures compared_bound { result.compared ≤ self.compared + 1 }
        ensures differing_bound { result.differing ≤ self.differing + 1 }
        ensures parting_bound { result.parting ≤ self.parting + 1 }
        ensures far_bound { result.far ≤ self.far + 1 }
    {
        let compared = self.compared.saturating_add(1);
        match found {
            Found::Alike => Tally { compared, ..self },
            Found::Far => Tally {
                compared,
                far: self.far.saturating_add(1),
                ..self
            },
            Found::Parts => Tally {
                compared,
                parting: self.parting.saturating_add(1),
                ..self
            },
            Found::Differs => Tally {
                compared,
                differing: self.differing.saturating_add(1),
                ..self
            },
            // It compares nothing, and counts as differing so that it is not passed over.
            Found::Bad => Tally {
                differing: self.differing.saturating_add(1),
                ..self
            },
        }
    }
}

// What a hexadecimal digit in lower case is worth.
fn digit(b: u8) -> Option<u32> {
    match b {
        b'0'..=b'9' => Some(u32::from(b - b'0')),
        b'a'..=b'f' => Some(u32::from(b - b'a') + 10),
        _ => None,
    }
}

// Number k of a whole line, counted from 0: each is 8 digits and a space.
fn number(line: &[u8], k: usize) -> u32
    requires { k < 5 }
{
    let mut n: u32 = 0;
    for byte in line.iter().skip(k * 9).take(8) {
        n = n << 4 | digit(*byte).unwrap_or(0);
    }
    n
}

// Whether byte b may stand in column i of a line.
fn suits(b: u8, i: usize) -> bool {
    if i == LINE - 1 {
        b == b'\n'
    } else if i == ORDER {
        b == b'<' || b == b'=' || b == b'>'
    } else if i % 9 == 8 {
        b == b' '
    } else {
        digit(b).is_some()
    }
}

// Whether a line is as described: one that the end of the input cuts short is not.
fn is_whole(line: &[u8]) -> bool {
    line.len() == LINE && line.iter().enumerate().all(|(i, b)| suits(*b, i))
}

// Whether the crate seq says the line's distance, and "far" where that is 2^30 or more either way.
fn says(apart: Option<i32>, distance: i32) -> bool {
    let is_far = 0x4000_0000 <= distance.unsigned_abs();
    match apart {
        Some(d) => !is_far && d == distance,
        None => is_far,
    }
}

// Whether the line has the sum, the difference and the distance that the crate seq finds.
fn computes_alike(line: &[u8]) -> bool {
    let a = Seq(number(line, 0));
    let b = number(line, 1);
    a.add(b) == Seq(number(line, 2))
        && a.sub(b) == Seq(number(line, 3))
        && says(a.distance(Seq(b)), number(line, 4).cast_signed())
}

// How the line's first number stands to its second by the crate seq, which has no order where they are far.
fn order_here(line: &[u8]) -> Option<Ordering> {
    let a = Seq(number(line, 0));
    let b = Seq(number(line, 1));
    if a.is_before(b) {
        Some(Ordering::Less)
    } else if b.is_before(a) {
        Some(Ordering::Greater)
    } else if a == b {
        Some(Ordering::Equal)
    } else {
        None
    }
}

// .. and by the original, as a whole line has it.
fn order_there(line: &[u8]) -> Option<Ordering> {
    match line.get(ORDER) {
        Some(b'<') => Some(Ordering::Less),
        Some(b'=') => Some(Ordering::Equal),
        Some(b'>') => Some(Ordering::Greater),
        _ => None,
    }
}

fn examine(line: &[u8]) -> Found {
    if !is_whole(line) {
        return Found::Bad;
    }
    if !computes_alike(line) {
        return Found::Differs;
    }
    let order = order_here(line);
    if order == order_there(line) {
        Found::Alike
    } else if order.is_none() {
        Found::Far
    } else {
        Found::Parts
    }
}

fn write(text: &[u8]) {
    io::write_all(STDOUT_FILENO, text);
}

fn write_pair(line: &[u8]) {
    if let Some(pair) = line.get(..PAIR) {
        write(pair);
    }
}

fn write_order(order: Option<Ordering>) {
    match order {
        Some(Ordering::Less) => write(b" before"),
        Some(Ordering::Equal) => write(b" equal"),
        Some(Ordering::Greater) => write(b" after"),
        None => write(b" far"),
    }
}

fn write_orders(line: &[u8]) {
    write_pair(line);
    write_order(order_here(line));
    write(b" here,");
    write_order(order_there(line));
    write(b" there\n");
}

// Writes what a line shows, unless all is alike: "here" is the crate seq, "there" the original.
fn report(line: &[u8], found: Found) {
    match found {
        Found::Alike => {}
        Found::Far | Found::Parts => write_orders(line),
        Found::Differs => {
            write_pair(line);
            write(b" differs\n");
        }
        Found::Bad => write(b"bad line\n"),
    }
}

// The last line may be cut short.
fn compare_all(text: &[u8]) -> Tally {
    let mut tally = Tally::default();
    for line in text.chunks(LINE) {
        let found = examine(line);
        report(line, found);
        tally = tally.with(found);
    }
    tally
}

fn write_count(count: u64, what: &[u8]) {
    io::print_decimal(STDOUT_FILENO, count);
    write(what);
}

// An input longer than the buffer is cut within a line, which is then bad: 65,536 is no multiple of 47.
fn main() {
    let mut buffer = io::large_buffer();
    let n = io::read_full(STDIN_FILENO, &mut buffer);
    let tally = compare_all(&buffer[..n]);
    write_count(tally.compared, b" pairs compared\n");
    write_count(tally.differing, b" differ in sum, difference or distance\n");
    write_count(tally.parting, b" part in their order\n");
    write_count(tally.far, b" are far here\n");
}
