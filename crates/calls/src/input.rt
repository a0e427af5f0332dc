// Reads the script in pieces, and has each line answered as soon as it is whole.
use crate::out::complain;
use crate::run::{End, first};
use std::io::Read;

// A piece of the input.
pub type Piece = [u8; 65536];

// A line's bytes. The longest call is a `send` of 2,048 bytes, which has 4,140; a line that has no room here is none.
pub type LineBytes = [u8; 4160];

// The present line, as far as it was read.
#[derive(Drop)]
pub struct Line<'a> {
    bytes: &'a mut LineBytes,
    // how many of its bytes are kept; none where it had more than there is room for
    kept: Option<usize>,
}

impl Line<'_> {
    fn keep(&mut self, part: &[u8]) {
        self.kept = self.try_keep(part);
    }

    fn try_keep(&mut self, part: &[u8]) -> Option<usize> {
        let kept = self.kept?;
        let end = kept.checked_add(part.len())?;
        let room = self.bytes.get_mut(kept..end)?;
        room.copy_from_slice(part);
        Some(end)
    }

    // The line is whole: it is answered, and the next one begins.
    fn end(&mut self, end: &mut End, received: &mut [u8]) {
        match self.kept {
            Some(kept) => end.answer(first(self.bytes, kept), received),
            None => end.unknown(),
        }
        self.kept = Some(0);
    }
}

// How many bytes were read, where there are more.
fn read_once(source: &mut impl Read, piece: &mut Piece) -> Option<usize> {
    match source.read(piece) {
        Ok(0) => None,
        Ok(n) => Some(n),
        Err(_) => {
            complain(b"calls: standard input cannot be read\n");
            None
        }
    }
}

#[derive(Drop)]
pub struct Input<'a, R> {
    source: &'a mut R,
    piece: &'a mut Piece,
    // which part of the piece that was read is not answered yet
    from: usize,
    upto: usize,
    line: Line<'a>,
    // whether there is more to read
    is_open: bool,
}

impl<'a, R: Read> Input<'a, R> {
    pub fn new(source: &'a mut R, piece: &'a mut Piece, bytes: &'a mut LineBytes) -> Self {
        Self {
            source,
            piece,
            from: 0,
            upto: 0,
            line: Line {
                bytes,
                kept: Some(0),
            },
            is_open: true,
        }
    }
}

impl<R: Read> Input<'_, R> {
    pub fn is_open(&self) -> bool {
        self.is_open
    }

    // Answers the rest of the piece, up to its end or to a `fresh` that asks for more cells than there is room for.
    fn lines(&mut self, end: &mut End, received: &mut [u8]) {
        let read = first(self.piece, self.upto);
        let rest = read.get(self.from..).unwrap_or(&[]);
        for part in rest.split_inclusive(|b| *b == b'\n') {
            if end.has_outgrown(received.len()) {
                return;
            }
            self.from = self.from.saturating_add(part.len());
            match part.strip_suffix(b"\n") {
                Some(last) => {
                    self.line.keep(last);
                    self.line.end(end, received);
                }
                None => self.line.keep(part),
            }
        }
    }

    // Writes out the answers to what was read, so that whoever asks has them before more is read, and reads once. With nobody to tell what
    // more there is, no line that was begun is answered.
    fn read_on(&mut self, end: &mut End) {
        if !end.out.flush() {
            self.line.kept = Some(0);
            self.is_open = false;
            return;
        }
        match read_once(self.source, self.piece) {
            Some(n) => {
                self.from = 0;
                self.upto = n;
            }
            None => self.is_open = false,
        }
    }

    // Answers every line, to the end of the input or, with more to read then, to a `fresh` that asks for more cells than there is room for.
    // A proved loop has to end, and nothing says that the input does, so that the turns are counted, up to a number that no run comes to.
    pub fn answer_all(&mut self, end: &mut End, received: &mut [u8]) {
        for _ in 0..u64::MAX {
            if end.has_outgrown(received.len()) {
                return;
            }
            if self.from < self.upto {
                self.lines(end, received);
            } else {
                self.read_on(end);
            }
            if !self.is_open {
                // A last line counts without a line feed too.
                if self.line.kept != Some(0) {
                    self.line.end(end, received);
                }
                return;
            }
        }
    }
}
