// Input in pieces: the unfinished line is carried along in a lent buffer, with a count of its bytes, and the text of the lines that end is
// written to another.
ghost use Rattle.std.specs.Prelude.{◌≡◌, ◌+◌, ◌≤◌, length};
ghost use Rattle.text.specs.Put.{put_in};
ghost use Rattle.replaying.specs.Writing.{LINE_TEXT};
ghost use Rattle.replaying.specs.Line.{left};
ghost use Rattle.replaying.specs.Feeding.{said_by, line_with, count_with, carried_line, carried_count, line_left, carrying, last_line, last_of, feed_of, feed_store, feed_records, feed_line, feed_out, close_of, close_store, close_records, close_out};
ghost use Rattle.replaying.specs.FeedLine.{fed_as};

use crate::lines::answer_line;
use crate::session::{Answered, Replay, Session};
use crate::taking::end_frame;
use crate::writing::{LINE_TEXT, write_line};
use recording::{MAX_LINE, line_end};
use refusal::Refusal;
use seq::Seq;
use text::put;

// Where a call left a piece: the session to go on with, how many of the piece's bytes were used, and how many bytes of text written.
#[derive(Clone, Copy)]
pub struct Fed {
    pub session: Session,
    pub used: usize,
    pub wrote: usize,
}

// Where the closing call left a session, and how many bytes of text it wrote.
#[derive(Clone, Copy)]
pub struct Closed {
    pub session: Session,
    pub wrote: usize,
}

// Carries one byte more. A count above 2,080 marks a line that is too long: its bytes are dropped. It stays a number, since the public
// promises of `feed` and `close` are on `Session.count`.
fn carry(line: &mut [u8; MAX_LINE], count: usize, b: u8) -> usize
    ensures value { result ≡ count_with count }
    ensures line_after { line.new ≡ line_with line.old count b }
{
    if count < MAX_LINE {
        line[count] = b;
        return count + 1;
    }
    MAX_LINE + 1
}

// Carries the bytes of a line, or of a part of it, and says how many are carried then.
fn gather(line: &mut [u8; MAX_LINE], count: usize, part: &[u8]) -> usize
    ensures value { result ≡ carried_count count part.now }
    ensures line_after { line.new ≡ carried_line line.old count part.now }
{
    let mut n = count;
    for b in part {
        n = carry(line, n, *b);
    }
    n
}

// The end of the line that is carried.
fn end_line(r: Replay, store: &mut [u8], records: &mut [u64], line: &[u8], count: usize) -> Answered
    ensures { left result store.new records.new ≡ line_left r store.old records.old line.now count }
{
    if MAX_LINE < count {
        return end_frame(Refusal::Bytes.number(), r.state, records);
    }
    answer_line(r, store, records, &line[..count.min(line.len())])
}

// Writes an answer's line at a place, if there is one, and says where its text ends.
fn show(answer: Option<(u8, Seq)>, out: &mut [u8], at: usize) -> usize
    requires { at + LINE_TEXT ≤ length out.old }
    ensures value { result ≡ at + length (said_by answer) }
    ensures out_after { out.new ≡ put_in (said_by answer) out.old at }
{
    match answer {
        None => at,
        Some((number, next)) => {
            let mut text = [0u8; LINE_TEXT];
            write_line(number, next, &mut text);
            put(&text, out, at)
        }
    }
}

// What a call answers, made in one place for its three exits.
fn fed_as(said: Answered, count: usize, used: usize, wrote: usize) -> Fed
    ensures { result ≡ fed_as (record { replay = said.replay; count = count }) used wrote }
{
    Fed {
        session: Session {
            replay: said.replay,
            count,
        },
        used,
        wrote,
    }
}

// Feeds a piece of the input: the lines that end in it are answered, their text is written from the buffer's start on, and what is left
// of the piece is carried. Where a line's text has no room any more it stops, at a line's end: the bytes that it didn't use are to be
// fed again.
pub fn feed(
    session: Session,
    store: &mut [u8],
    records: &mut [u64],
    line: &mut [u8; MAX_LINE],
    piece: &[u8],
    out: &mut [u8],
) -> Fed
    ensures value { result ≡ feed_of (carrying session store.old records.old line.old) piece.now (length out.old) }
    ensures store_after { store.new ≡ feed_store (carrying session store.old records.old line.old) piece.now (length out.old) }
    ensures records_after { records.new ≡ feed_records (carrying session store.old records.old line.old) piece.now (length out.old) }
    ensures line_after { line.new ≡ feed_line (carrying session store.old records.old line.old) piece.now (length out.old) }
    ensures out_after { out.new ≡ feed_out (carrying session store.old records.old line.old) piece.now out.old }
{
    let mut said = Answered {
        answer: None,
        replay: session.replay,
    };
    let mut count = session.count;
    let mut used: usize = 0;
    let mut wrote: usize = 0;
    // a turn takes a line, as long as there is room for its text, so the turns go by places and not by bytes
    while used < piece.len() {
        if out.len() - wrote < LINE_TEXT {
            return fed_as(said, count, used, wrote);
        }
        let end = line_end(piece, used);
        count = gather(line, count, &piece[used..end]);
        used = end;
        if piece.len() <= used {
            return fed_as(said, count, used, wrote);
        }
        said = end_line(said.replay, store, records, line, count);
        wrote = show(said.answer, out, wrote);
        count = 0;
        used += 1;
    }
    fed_as(said, count, used, wrote)
}

// What the last line answers, if there is one.
fn last_line(session: Session, store: &mut [u8], records: &mut [u64], line: &[u8]) -> Answered
    ensures { left result store.new records.new ≡ last_line (carrying session store.old records.old line.now) }
{
    if session.count == 0 {
        return Answered {
            answer: None,
            replay: session.replay,
        };
    }
    end_line(session.replay, store, records, line, session.count)
}

// The last line, and a Data whose payload doesn't come any more.
fn end_input(session: Session, store: &mut [u8], records: &mut [u64], line: &[u8]) -> Answered
    ensures { left result store.new records.new ≡ last_of (carrying session store.old records.old line.now) }
{
    let said = last_line(session, store, records, line);
    match said.replay.waiting {
        None => said,
        Some(_) => end_frame(Refusal::Bytes.number(), said.replay.state, records),
    }
}

// The end of the input: a last line without a line feed counts, and an absent payload is a bad one. At most one line is written.
pub fn close(
    session: Session,
    store: &mut [u8],
    records: &mut [u64],
    line: &[u8; MAX_LINE],
    out: &mut [u8; LINE_TEXT],
) -> Closed
    ensures value { result ≡ close_of (carrying session store.old records.old line.now) }
    ensures store_after { store.new ≡ close_store (carrying session store.old records.old line.now) }
    ensures records_after { records.new ≡ close_records (carrying session store.old records.old line.now) }
    ensures out_after { out.new ≡ close_out (carrying session store.old records.old line.now) out.old }
{
    let last = end_input(session, store, records, line);
    let wrote = show(last.answer, out, 0);
    Closed {
        session: Session {
            replay: last.replay,
            count: 0,
        },
        wrote,
    }
}
