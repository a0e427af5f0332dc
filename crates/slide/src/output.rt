// Standard output.
use std::fmt;

const STDOUT_FILENO: i32 = 1;

const STDERR_FILENO: i32 = 2;

#[derive(Clone, Copy)]
pub struct Output {
    // whether a part could not be written
    is_broken: bool,
}

impl fmt::Write for Output {
    // A part that could not be written is noted, and the rest goes on.
    fn write_str(&mut self, text: &str) -> fmt::Result {
        self.bytes(text.as_bytes());
        Ok(())
    }
}

impl Output {
    pub const NEW: Self = Self { is_broken: false };

    pub fn bytes(&mut self, bytes: &[u8]) {
        if !io::write_all(STDOUT_FILENO, bytes) {
            self.is_broken = true;
        }
    }

    // Writes a text, or what `format_args!` makes.
    pub fn say(&mut self, text: impl fmt::Display + Drop) {
        let _ = fmt::Write::write(self, text);
    }

    // After everything: whether it could all be written.
    pub fn close(&self) {
        if self.is_broken {
            io::write_all(STDERR_FILENO, b"slide: standard output cannot be written\n");
        }
    }
}
