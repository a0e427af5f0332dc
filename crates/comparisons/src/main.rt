// Compares pairs of recordings, one after the other, from standard input: a line with both lengths, five digits each, then the bytes of
// the first and of the second. For each pair it writes what `compare` would, the line that sums up too, and a line with a full stop.
#![tactic(auto)]

ghost use Rattle.std.specs.Prelude.{◌≤◌};

use comparing::{
    Compared, DIFFERENCES, LINE, SUMMARY, Side, compare, write_difference, write_refused,
    write_summary,
};
use refusal::Refusal;

// The descriptors of standard input and output.
const STDIN_FILENO: i32 = 0;

const STDOUT_FILENO: i32 = 1;

// The most bytes of a recording.
const MOST: usize = 24_576;

fn digit(b: u8) -> usize
    ensures { result ≤ 9 }
{
    match b {
        b'0'..=b'9' => (b - b'0') as usize,
        _ => 0,
    }
}

// What digits say, at most the bytes of a recording.
fn length_of(digits: &[u8]) -> usize
    ensures { result ≤ 24576 }
{
    let mut n: usize = 0;
    for b in digits {
        n = (n * 10 + digit(*b)).min(MOST);
    }
    n
}

// Writes the start of a text. No text is as long as its room, so that the text is always there.
fn show_start(text: &[u8], length: usize) {
    if let Some(text) = text.get(..length) {
        io::write_all(STDOUT_FILENO, text);
    }
}

fn show_difference(word: u64) {
    let mut text = [0u8; LINE];
    let length = write_difference(word, &mut text);
    show_start(&text, length);
}

fn show_list(list: &[u64; DIFFERENCES], n: usize, first: usize, second: usize) {
    for word in list.iter().take(n) {
        show_difference(*word);
    }
    let mut text = [0u8; SUMMARY];
    let length = write_summary(list, n, first, second, &mut text);
    show_start(&text, length);
}

fn show_refusal(refusal: Refusal, side: Side, line: usize) {
    let mut text = [0u8; LINE];
    let length = write_refused(refusal, side, line, &mut text);
    show_start(&text, length);
}

fn show(compared: Compared, list: &[u64; DIFFERENCES]) {
    match compared {
        Ok((n, first, second)) => show_list(list, n, first, second),
        Err((refusal, side, line)) => show_refusal(refusal, side, line),
    }
}

// Reads the next bytes of the input, as many as are asked for and there, and says how many.
fn read_part(part: &mut [u8; MOST], n: usize) -> usize
    requires { n ≤ 24576 }
    ensures { result ≤ n }
{
    io::read_full(STDIN_FILENO, &mut part[..n])
}

// Compares a pair, and writes what it led to.
fn compare_pair(first: &[u8], second: &[u8]) {
    let mut list = [0u64; DIFFERENCES];
    let compared = compare(first, second, &mut list);
    show(compared, &list);
    io::write_all(STDOUT_FILENO, b".\n");
}

// Compares the next pair, and says whether there was one.
fn compare_next() -> bool {
    let mut header = [0u8; 12];
    let got = io::read_full(STDIN_FILENO, &mut header);
    if got < 12 {
        return false;
    }
    let mut first = [0u8; MOST];
    let mut second = [0u8; MOST];
    let n = read_part(&mut first, length_of(&header[..5]));
    let m = read_part(&mut second, length_of(&header[6..11]));
    compare_pair(&first[..n], &second[..m]);
    true
}

// A proved loop has to end, so this one has as many turns as no run uses up.
fn main() {
    for _ in 0..u64::MAX {
        if !compare_next() {
            return;
        }
    }
}
