// Replays a session: frames from standard input in lower-case hexadecimal, one a line, a Data's payload on the line after it. It
// writes one line a frame: the answer in two digits, a space, and the next expected number in eight.
#![tactic(auto)]

ghost use Rattle.std.specs.Prelude.{◌≡◌, IfOk};
ghost use Rattle.replaying.specs.Feeding.{carrying, fed_by};
ghost use Rattle.replaying.specs.Pieces.{lent};

use recording::MAX_LINE;
use replaying::{CELLS, LINE_TEXT, RECEIVED_BYTES, Session, begin, close, feed};
use std::io::{Cursor, Error, ErrorKind, Read, Write};
use std::str;

// The descriptor of standard error.
const STDERR_FILENO: i32 = 2;

fn complain(what: &[u8]) {
    io::write_all(STDERR_FILENO, what);
}

// The text of an error without the number that std puts behind the system's words.
fn words_of(text: &str) -> &str {
    match text.split_once(" (os error ") {
        Some((words, _)) => words,
        None => text,
    }
}

// Says what failed, and why. The room is enough for the longest text of an error, whose words the system has in 256 bytes.
fn complain_of(what: &[u8], error: Error) {
    complain(what);
    complain(b": ");
    let mut room = Cursor::new([0u8; 320]);
    let _ = write!(room, "{error}");
    let text = room.get_ref();
    let length = (room.position() as usize).min(text.len());
    if let Ok(text) = str::from_utf8(&text[..length]) {
        complain(words_of(text).as_bytes());
    }
    complain(b"\n");
}

// Why a replay ended early, which was said.
#[derive(Clone, Copy)]
enum Stopped {
    Unread,
    Unwritten,
}

// Writes a text, or says why it could not be written.
fn show(output: &mut impl Write, text: &[u8]) -> Result<(), Stopped> {
    match output.write_all(text) {
        Ok(()) => Ok(()),
        Err(error) => {
            complain_of(b"replay: standard output cannot be written", error);
            Err(Stopped::Unwritten)
        }
    }
}

// Answers the lines that end in a piece of the input, up to the first text that cannot be written, and says with which session to go
// on. What a buffer has no room for is fed again.
fn answer_piece(
    output: &mut impl Write,
    session: Session,
    store: &mut [u8],
    records: &mut [u64],
    line: &mut [u8; MAX_LINE],
    piece: &[u8],
) -> Result<Session, Stopped>
    ensures { IfOk result (λ next. carrying next store.new records.new line.new ≡ lent (fed_by (carrying session store.old records.old line.old) piece.now)) }
{
    let mut space = io::buffer();
    let out: &mut [u8] = &mut space;
    let mut going = session;
    let mut at: usize = 0;
    // by what `feed` used, which no `for` says plainer
    while at < piece.len() {
        let fed = feed(going, store, records, line, &piece[at..], out);
        going = fed.session;
        at += fed.used;
        show(output, &out[..fed.wrote])?;
    }
    Ok(going)
}

// The end of the input: its last line is answered.
fn finish(
    output: &mut impl Write,
    session: Session,
    store: &mut [u8],
    records: &mut [u64],
    line: &[u8; MAX_LINE],
) -> Result<(), Stopped> {
    let mut text = [0u8; LINE_TEXT];
    let closed = close(session, store, records, line, &mut text);
    show(output, &text[..closed.wrote])
}

// Replays an input. A read that a signal interrupted has brought an empty piece. A proved loop has to end, so this one has a number of turns
// that no run uses up.
fn replay_input(
    input: &mut impl Read,
    output: &mut impl Write,
    store: &mut [u8],
    records: &mut [u64],
    line: &mut [u8; MAX_LINE],
) -> Result<(), Stopped> {
    let mut session = begin(records);
    let mut buffer = io::large_buffer();
    for _ in 0..u64::MAX {
        let n = match input.read(&mut buffer) {
            Ok(0) => return finish(output, session, store, records, line),
            Ok(n) => n,
            Err(error) => {
                if error.kind() != ErrorKind::Interrupted {
                    complain_of(b"replay: standard input cannot be read", error);
                    return Err(Stopped::Unread);
                }
                0
            }
        };
        session = answer_piece(output, session, store, records, line, &buffer[..n])?;
    }
    Err(Stopped::Unread)
}

fn main(rt: HostRuntime) {
    let mut store = [0u8; RECEIVED_BYTES];
    let mut records = [0u64; CELLS];
    let mut line = [0u8; MAX_LINE];
    let _ = replay_input(
        &mut rt.stdin(),
        &mut rt.stdout(),
        &mut store,
        &mut records,
        &mut line,
    );
}
