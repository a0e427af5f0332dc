// Feeds pieces of recordings to replays, one call an item of standard input, so that any cutting can be tried with buffers of any sizes.
// An item is a line of twelve bytes, a letter and two numbers of four hexadecimal digits: `p` for a piece, with its length and the
// buffer's, and then the piece's bytes; `c` closes the session; `b` drops it unclosed. After both another session begins. Each call writes
// how many bytes it used and how many it wrote, and then its text.
#![tactic(auto)]

ghost use Rattle.std.specs.Prelude.{◌≤◌};

use recording::MAX_LINE;
use replaying::{CELLS, LINE_TEXT, RECEIVED_BYTES, Session, begin, close, feed};
use text::{hex_value, put_hex};

// The descriptors of standard input and of standard output.
const STDIN_FILENO: i32 = 0;

const STDOUT_FILENO: i32 = 1;

// The most bytes of a piece, and of a buffer.
const PIECE: usize = 8192;

const BUFFER: usize = 4096;

// What digits say, at most so much.
fn number(digits: &[u8], most: usize) -> usize
    ensures { result ≤ most }
{
    let mut n: usize = 0;
    for b in digits {
        n = (n * 16 + usize::from(hex_value(*b))).min(PIECE);
    }
    n.min(most)
}

// Four digits of a number.
fn put_count(n: usize, out: &mut [u8], at: usize) -> usize {
    let [high, low] = ((n % 0x1_0000) as u16).to_be_bytes();
    let at = put_hex(high, out, at);
    put_hex(low, out, at)
}

fn show_counts(used: usize, wrote: usize) {
    let mut counts = *b"0000 0000\n";
    put_count(used, &mut counts, 0);
    put_count(wrote, &mut counts, 5);
    io::write_all(STDOUT_FILENO, &counts);
}

// One call, and what it says.
fn feed_one(
    session: Session,
    store: &mut [u8],
    records: &mut [u64],
    line: &mut [u8; MAX_LINE],
    piece: &[u8],
    out: &mut [u8],
) -> Session {
    let fed = feed(session, store, records, line, piece, out);
    show_counts(fed.used, fed.wrote);
    io::write_all(STDOUT_FILENO, &out[..fed.wrote]);
    fed.session
}

// Feeds the piece that comes next, or as much of it as there is.
fn feed_next(
    session: Session,
    store: &mut [u8],
    records: &mut [u64],
    line: &mut [u8; MAX_LINE],
    length: usize,
    room: usize,
) -> Session
    requires length_len_bound { length ≤ 8192 }
    requires room_bound { room ≤ 4096 }
{
    let mut piece = [0u8; PIECE];
    let mut out = [0u8; BUFFER];
    let n = io::read_full(STDIN_FILENO, &mut piece[..length]);
    feed_one(session, store, records, line, &piece[..n], &mut out[..room])
}

// The end of a session.
fn close_one(session: Session, store: &mut [u8], records: &mut [u64], line: &[u8; MAX_LINE]) {
    let mut text = [0u8; LINE_TEXT];
    let closed = close(session, store, records, line, &mut text);
    show_counts(0, closed.wrote);
    io::write_all(STDOUT_FILENO, &text[..closed.wrote]);
}

// Takes the next item, if there is one, and answers the session to go on with.
fn next_item(
    session: Session,
    store: &mut [u8],
    records: &mut [u64],
    line: &mut [u8; MAX_LINE],
) -> Option<Session> {
    let mut item = [0u8; 12];
    let got = io::read_full(STDIN_FILENO, &mut item);
    if got < 12 {
        return None;
    }
    let length = number(&item[2..6], PIECE);
    let room = number(&item[7..11], BUFFER);
    match item[0] {
        b'p' => Some(feed_next(session, store, records, line, length, room)),
        b'c' => {
            close_one(session, store, records, line);
            Some(begin(records))
        }
        _ => Some(begin(records)),
    }
}

// A proved loop has to end, so this one has as many turns as no run uses up.
fn take_items(store: &mut [u8], records: &mut [u64], line: &mut [u8; MAX_LINE]) {
    let mut session = begin(records);
    for _ in 0..u64::MAX {
        let Some(next) = next_item(session, store, records, line) else {
            return;
        };
        session = next;
    }
}

fn main() {
    let mut store = [0u8; RECEIVED_BYTES];
    let mut records = [0u64; CELLS];
    let mut line = [0u8; MAX_LINE];
    take_items(&mut store, &mut records, &mut line);
}
