// A message as one run of bytes, its frame and then its payload, and where two runs part.
ghost use Rattle.std.specs.Prelude.{◌≡◌, ◌++◌, ◌+◌, ◌≤◌, ◌==◌, ℕ, not, position, zip, length, take, drop};
ghost use Rattle.comparing.specs.Sizes.{RUN};
ghost use Rattle.comparing.specs.Runs.{content_of, line_bytes, payload_after, run_at};

use crate::messages::{Found, read_line};
use crate::sizes::RUN;
use recording::{MAX_LINE, line_end};
use text::read_hex;

// Where two runs part.
#[derive(Clone, Copy)]
pub enum Content {
    Equal,
    // the place of the first byte in which they differ, and both bytes
    Differ(usize, u8, u8),
    // one is a beginning of the other: the shorter length
    Begins(usize),
}

// The place of the first byte in which two runs differ, as far as both go.
fn first_difference(a: &[u8], b: &[u8]) -> Option<usize>
    ensures { result ≡ position (λ (both : ℕ × ℕ). not (both.0 == both.1)) (zip a.now b.now) }
{
    a.iter().zip(b).position(|(x, y)| *x != *y)
}

pub(crate) fn compare_bytes(a: &[u8], b: &[u8]) -> Content
    ensures { result ≡ content_of a.now b.now }
{
    let Some(place) = first_difference(a, b) else {
        return if a.len() == b.len() {
            Content::Equal
        } else {
            Content::Begins(a.len().min(b.len()))
        };
    };
    Content::Differ(place, a[place], b[place])
}

// Puts the bytes of a line behind the first n of a run, and says how many the run has now.
fn append_line(line: &[u8], run: &mut [u8], n: usize) -> usize
    requires { n + 1040 ≤ length run.old }
    ensures run_after { take result run.new ≡ take n run.old ++ line_bytes line.now }
    ensures upper_bound { result ≤ n + 1040 }
{
    if MAX_LINE < line.len() {
        return n;
    }
    let Some(k) = read_hex(line, &mut run[n..]) else {
        return n;
    };
    n + k
}

// Of a Data's frame, puts its payload behind it, which the next line spells.
fn append_payload(found: Found, line: &[u8], run: &mut [u8], n: usize) -> usize
    requires { n + 1040 ≤ length run.old }
    ensures run_after { take result run.new ≡ take n run.old ++ payload_after found line.now }
    ensures upper_bound { result ≤ n + 1040 }
{
    match found {
        Found::Awaits(_) => append_line(line, run, n),
        Found::Bad | Found::Holds(_) | Found::Passes => n,
    }
}

// Puts the run of the message that begins at a place into a buffer, and says how long it is.
fn read_run(input: &[u8], at: usize, run: &mut [u8]) -> usize
    requires { RUN ≤ length run.old }
    ensures run_after { take result run.new ≡ run_at input.now at }
    ensures upper_bound { result ≤ RUN }
{
    if input.len() <= at {
        return 0;
    }
    let end = line_end(input, at);
    let frame = &input[at..end];
    let n = append_line(frame, run, 0);
    if input.len() <= end {
        return n;
    }
    let next = end + 1;
    if input.len() <= next {
        return n;
    }
    let found = read_line(None, frame, 0, 0);
    let last = line_end(input, next);
    append_payload(found, &input[next..last], run, n)
}

// Where the messages that begin at two places part.
pub(crate) fn compare_runs(a: &[u8], i: usize, b: &[u8], j: usize) -> Content
    ensures { result ≡ content_of (run_at a.now i) (run_at b.now j) }
{
    let mut x = [0u8; RUN];
    let mut y = [0u8; RUN];
    let n = read_run(a, i, &mut x);
    let m = read_run(b, j, &mut y);
    compare_bytes(&x[..n], &y[..m])
}
