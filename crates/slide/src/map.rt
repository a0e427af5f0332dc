// The map of the slide, a row as soon as its last tile has arrived.
use crate::output::Output;
use crate::picture::glyph;
use tiles::COLUMNS;

const WIDTH: usize = COLUMNS as usize;

// What the map says beside its next row.
#[derive(Clone, Copy)]
pub enum Event {
    Died,
    Returned,
    Wrapped,
}

impl Event {
    fn text(self) -> &'static str {
        match self {
            Event::Died => "  cable 2 is dead",
            Event::Returned => "  cable 2 is back under another identity",
            Event::Wrapped => "  number ffffffff was followed by 00000000",
        }
    }
}

#[derive(Clone, Copy)]
pub struct Map {
    // the row that is arriving
    row: [u8; WIDTH],
    pub event: Option<Event>,
}

impl Map {
    pub const EMPTY: Self = Self {
        row: [b' '; WIDTH],
        event: None,
    };

    // Shows a tile by the shade among its bytes.
    pub fn put(&mut self, n: u16, bytes: &[u8], tick: u64, out: &mut Output) {
        let Some(shade) = bytes.first() else {
            return;
        };
        let column = (n % COLUMNS) as usize;
        self.row[column] = glyph(*shade);
        if column + 1 == WIDTH {
            self.print_row(tick, out);
        }
    }

    fn print_row(&mut self, tick: u64, out: &mut Output) {
        let event = self.event.take().map_or("", Event::text);
        out.say("|");
        out.bytes(&self.row);
        out.say(format_args!("|{tick:>6}{event}\n"));
    }
}
