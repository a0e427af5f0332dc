// Words that stand where no cell is in use: a number past the end brings cells into use, and empties those of the numbers that are left
// out. None of those is held then, whatever its word said: each that comes is new.
use crate::good::{self, LENT, ROOM, ReceivedStore, Records, WORDS};
use crate::report::{self, Words, say};
use crate::set::turns;
use crate::tally::number_of;
use crate::trial::Trial;
use engine::State;

// Not a record, and the record of a message.
const NONE: u64 = 0x08;

const MESSAGE: u64 = 0x307;

// A number is received, and what that makes of the state and the words is written.
fn number(s: &State, received: &mut ReceivedStore, records: &mut Records, n: u32) -> State {
    let before = *records;
    let out = good::receive(s, received, records, LENT, n, b"xy");
    let now = *records;
    let is_sound = good::is_sound(&out.state, &now, WORDS);
    let words = Words {
        before: &before,
        now: &now,
        is_sound,
    };
    let acks = out.state.links[0].ack_count;
    report::number_received(n, number_of(out.outcome), acks, out.state.rx, words);
    out.state
}

fn receive(start: State, received: &mut ReceivedStore, records: &mut Records, numbers: &[u32]) {
    let mut s = start;
    for n in numbers {
        s = number(&s, received, records, *n);
    }
}

// The good state uses the cells 63, 0 and 1. 2 to 6 are left out, and come after. 6 comes twice, and then 8, behind which no cell is in use.
fn past_the_end(t: &mut Trial) {
    let mut some = t.records;
    turns(&mut some, 2..63, NONE, MESSAGE);
    turns(&mut some, 64..ROOM, NONE, MESSAGE);
    say("the good state, with words where no cell is in use");
    say("\n");
    receive(
        t.state,
        &mut t.received,
        &mut some,
        &[7, 3, 0, 2, 5, 4, 6, 6, 8],
    );
}

// The fresh state uses none. fffffffc to 6 are left out: the cells 60 to 63, and 0 to 6.
fn round(t: &mut Trial) {
    let mut every = t.records;
    let fresh = good::fresh(0xFFFF_FFFC, &mut every);
    let s = engine::add(fresh, 11, 50, None, false, false).state;
    turns(&mut every, 0..ROOM, NONE, MESSAGE);
    say("a fresh state, with words in every cell");
    say("\n");
    let numbers = [7, 0xFFFF_FFFF, 0xFFFF_FFFC, 0, 0xFFFF_FFFE, 0xFFFF_FFFD];
    receive(s, &mut t.received, &mut every, &numbers);
}

pub fn all(t: &mut Trial) {
    past_the_end(t);
    round(t);
}
