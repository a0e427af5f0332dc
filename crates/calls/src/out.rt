// Standard output, through a buffer.
use engine::DATA_BYTES;
use std::{fmt, str};
use text::hex_digit;

const STDOUT_FILENO: i32 = 1;

const STDERR_FILENO: i32 = 2;

pub type Buffer = [u8; 65536];

pub fn complain(what: &[u8]) {
    io::write_all(STDERR_FILENO, what);
}

#[derive(Drop)]
pub struct Out<'a> {
    buffer: &'a mut Buffer,
    // up to where the buffer is full
    length: usize,
}

impl<'a> Out<'a> {
    pub fn new(buffer: &'a mut Buffer) -> Self {
        Self { buffer, length: 0 }
    }
}

impl Out<'_> {
    // Puts a run of bytes, where there is room for it.
    fn try_put(&mut self, run: &[u8]) -> Option<()> {
        let start = self.length;
        let end = start.checked_add(run.len())?;
        let room = self.buffer.get_mut(start..end)?;
        room.copy_from_slice(run);
        self.length = end;
        Some(())
    }

    // Puts a run of bytes that is shorter than the buffer.
    fn put(&mut self, run: &[u8]) {
        if self.try_put(run).is_none() {
            self.flush();
            self.try_put(run);
        }
    }

    // Puts a text, or what `format_args!` makes.
    pub fn say(&mut self, text: impl fmt::Display + Drop) {
        let _ = fmt::Write::write(self, text);
    }

    // Makes room in the buffer, and answers whether what it held could be written; where not, it is told.
    pub fn flush(&mut self) -> bool {
        let held = self.buffer.get(..self.length).unwrap_or(&[]);
        self.length = 0;
        if io::write_all(STDOUT_FILENO, held) {
            return true;
        }
        complain(b"calls: standard output cannot be written\n");
        false
    }
}

impl fmt::Write for Out<'_> {
    fn write_str(&mut self, text: &str) -> fmt::Result {
        self.put(text.as_bytes());
        Ok(())
    }
}

// So many bytes become digits at a time.
const HEX_RUN: usize = 32;

// The digits of a run of bytes, at most so many, and zero bytes behind them.
fn digits_of(run: &[u8]) -> [u8; 2 * HEX_RUN] {
    let mut digits = [0u8; 2 * HEX_RUN];
    let (pairs, _) = digits.as_chunks_mut::<2>();
    for (pair, b) in pairs.iter_mut().zip(run) {
        *pair = [hex_digit(b / 16), hex_digit(*b)];
    }
    digits
}

// Bytes in hexadecimal, or `-` where there are none.
#[derive(Clone, Copy)]
pub struct Hex<'a>(pub &'a [u8]);

impl fmt::Display for Hex<'_> {
    fn fmt<W: fmt::Write>(&self, f: &mut fmt::Formatter<W>) -> fmt::Result {
        if self.0.is_empty() {
            return f.write_str("-");
        }
        // a run of digits at a time: a byte at a time by `write!` took eight times as long
        for part in self.0.chunks(HEX_RUN) {
            let digits = digits_of(part);
            let text = digits.get(..2 * part.len()).unwrap_or(&[]);
            f.write_str(str::from_utf8(text).unwrap_or(""))?;
        }
        Ok(())
    }
}

// A cell of a store: as many bytes of it as a length says. A sound state has no length past the cell, so that there are always those.
#[derive(Clone, Copy)]
pub struct Cell<'a>(Option<&'a [u8]>);

impl<'a> Cell<'a> {
    pub fn of(store: &'a [u8], cell: u32, length: u32) -> Self {
        let start = cell as usize * DATA_BYTES;
        Self(store.get(start..start + length as usize))
    }
}

impl fmt::Display for Cell<'_> {
    fn fmt<W: fmt::Write>(&self, f: &mut fmt::Formatter<W>) -> fmt::Result {
        match self.0 {
            Some(bytes) => {
                let hex = Hex(bytes);
                write!(f, "{hex}")
            }
            None => f.write_str("!"),
        }
    }
}

// A number, or `-` where there is none.
#[derive(Clone, Copy)]
pub struct Maybe(pub Option<u64>);

impl fmt::Display for Maybe {
    fn fmt<W: fmt::Write>(&self, f: &mut fmt::Formatter<W>) -> fmt::Result {
        match self.0 {
            Some(n) => write!(f, "{n}"),
            None => f.write_str("-"),
        }
    }
}
