// The fresh state's call: accepted, it leaves every record empty, whatever it held; refused, as it was.
use crate::good::{self, FIRST, ROOM};
use crate::report::{self, Words};
use crate::tally::number_of;
use seq::Seq;

// What the records are before: words that are no records, and the records of messages.
const NONE: u64 = u64::MAX;

const MESSAGE: u64 = 0x307;

// What a fresh state is asked for, over so many words that are all the same.
#[derive(Clone, Copy)]
struct Asked {
    word: u64,
    cells: u32,
    buffer: u32,
    words: usize,
}

// As the good state was.
const GOOD: Asked = Asked {
    word: NONE,
    cells: 64,
    buffer: 65_536,
    words: 64,
};

fn over(name: &str, asked: Asked) {
    let before = [asked.word; ROOM];
    let mut now = before;
    let words = good::first_mut(&mut now, asked.words);
    let out = engine::fresh(Seq(FIRST), asked.buffer, asked.cells, words);
    let is_sound = good::is_sound(&out.state, &now, asked.words);
    let words = Words {
        before: &before,
        now: &now,
        is_sound,
    };
    report::fresh(name, number_of(out.outcome), out.state.rx, words);
}

fn accepted() {
    over("fresh over words that are no records", GOOD);
    over(
        "fresh over records of messages",
        Asked {
            word: MESSAGE,
            buffer: 1,
            ..GOOD
        },
    );
    over(
        "fresh with 128 cells",
        Asked {
            cells: 128,
            buffer: 131_072,
            words: 128,
            ..GOOD
        },
    );
}

fn refused() {
    for (name, words) in [
        ("fresh with a record less", 63),
        ("fresh with a record more", 65),
        ("fresh with no records", 0),
    ] {
        over(name, Asked { words, ..GOOD });
    }
    over(
        "fresh with twice the records",
        Asked {
            word: MESSAGE,
            words: 128,
            ..GOOD
        },
    );
    for (name, buffer) in [
        ("fresh with no buffer", 0),
        ("fresh with a buffer of a byte more", 65_537),
    ] {
        over(name, Asked { buffer, ..GOOD });
    }
    over(
        "fresh with 65 cells",
        Asked {
            word: MESSAGE,
            cells: 65,
            words: 65,
            ..GOOD
        },
    );
    over(
        "fresh with no cells",
        Asked {
            cells: 0,
            buffer: 0,
            words: 0,
            ..GOOD
        },
    );
    over(
        "fresh with 65 cells and 64 records",
        Asked { cells: 65, ..GOOD },
    );
}

pub fn all() {
    accepted();
    refused();
}
