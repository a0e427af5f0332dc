// A line's words, parted by one space each, and the numbers and bytes that a word can be.
use seq::Seq;
use text::read_decimal;

// The words that are still to be read; none once the last was.
#[derive(Clone, Copy)]
pub struct Words<'a> {
    rest: Option<&'a [u8]>,
}

impl<'a> Words<'a> {
    pub fn of(line: &'a [u8]) -> Self {
        Self { rest: Some(line) }
    }

    pub fn next(&mut self) -> Option<&'a [u8]> {
        let rest = self.rest?;
        match rest.iter().position(|b| *b == b' ') {
            Some(end) => {
                self.rest = rest.get(end + 1..);
                rest.get(..end)
            }
            None => {
                self.rest = None;
                Some(rest)
            }
        }
    }

    // Whether every word was read.
    pub fn are_over(&self) -> bool {
        self.rest.is_none()
    }

    pub fn decimal(&mut self, limit: u64) -> Option<u64> {
        read_decimal(self.next()?, limit)
    }

    pub fn byte(&mut self) -> Option<u8> {
        u8::try_from(self.decimal(u64::MAX)?).ok()
    }

    pub fn number(&mut self) -> Option<u32> {
        u32::try_from(self.decimal(u64::MAX)?).ok()
    }

    pub fn seq(&mut self) -> Option<Seq> {
        self.number().map(Seq)
    }

    pub fn long(&mut self) -> Option<u64> {
        self.decimal(u64::MAX)
    }

    pub fn size(&mut self, limit: usize) -> Option<usize> {
        usize::try_from(self.decimal(limit as u64)?).ok()
    }

    pub fn flag(&mut self) -> Option<bool> {
        Some(self.decimal(1)? == 1)
    }

    // A number, or `-` for none.
    pub fn limit(&mut self) -> Option<Option<u64>> {
        match self.next()? {
            b"-" => Some(None),
            word => Some(Some(read_decimal(word, u64::MAX)?)),
        }
    }

    // The bytes of a word go to the start of `into`; `-` is for none.
    pub fn bytes(&mut self, into: &mut [u8]) -> Option<usize> {
        match self.next()? {
            b"-" => Some(0),
            b"" => None,
            word => text::read_hex(word, into),
        }
    }
}
