// What is written.
use crate::good::Records;
use crate::tally::{Answered, Count, Tally};
use engine::Receiving;
use std::fmt;

const STDOUT_FILENO: i32 = 1;

const STDERR_FILENO: i32 = 2;

// Standard output. Where a part could not be written, that is told, and the rest goes on.
#[derive(Clone, Copy)]
struct Output;

impl fmt::Write for Output {
    fn write_str(&mut self, text: &str) -> fmt::Result {
        if !io::write_all(STDOUT_FILENO, text.as_bytes()) {
            io::write_all(
                STDERR_FILENO,
                b"unsound: standard output cannot be written\n",
            );
        }
        Ok(())
    }
}

// Writes a text, or what `format_args!` makes.
pub fn say(text: impl fmt::Display + Drop) {
    let mut output = Output;
    let _ = fmt::Write::write(&mut output, text);
}

// How many calls gave an answer, if any did, with what stands before it on the line; and what stands before the next then.
fn part(lead: &'static str, count: Count, number: u8) -> &'static str {
    let n = count.0;
    if n == 0 {
        return lead;
    }
    let calls = if n == 1 {
        " call answers "
    } else {
        " calls answer "
    };
    say(format_args!("{lead}{n}{calls}{number}"));
    ", "
}

// The rest of a line, once every call has answered.
pub fn line(answered: Answered) {
    let one = part(": ", answered.store_length, 2);
    let next = part(one, answered.unsound, 1);
    part(next, answered.accepted, 0);
    say("\n");
}

pub fn store(name: &str, as_it_came: bool) {
    say(name);
    if as_it_came {
        say(" is as it came\n");
    } else {
        say(" is CHANGED\n");
    }
}

pub fn end(tally: &Tally) {
    let states = tally.states.0;
    let others = tally.others.0;
    let otherwise = tally.otherwise.0;
    say(format_args!(
        "{states} states, {others} of them with a field or a record set otherwise; {otherwise} calls answered otherwise\n"
    ));
}

// A record space before and after a call, and whether the state is sound with it then.
#[derive(Clone, Copy)]
pub struct Words<'a> {
    pub before: &'a Records,
    pub now: &'a Records,
    pub is_sound: bool,
}

impl Words<'_> {
    // How many are 0, and how many are as they were.
    fn tell(&self) {
        let now = self.now;
        let before = self.before;
        let none = now.iter().filter(|word| **word == 0).count();
        let same = now
            .iter()
            .zip(before)
            .filter(|(now, before)| *now == *before)
            .count();
        let sound = if self.is_sound {
            "; sound\n"
        } else {
            "; not sound\n"
        };
        say(format_args!("; words that are 0: {none}, as they were: {same}{sound}"));
    }
}

// A fresh state's line.
pub fn fresh(name: &str, answer: u8, rx: Receiving, words: Words) {
    let cells = rx.cells;
    let buffer = rx.recv_buffer;
    say(format_args!("{name}: answers {answer}; cells {cells}, recv_buffer {buffer}"));
    words.tell();
}

// The line of a number that was received: the acks that wait, and the receiving half.
pub fn number_received(n: u32, answer: u8, acks: usize, rx: Receiving, words: Words) {
    let next = rx.rx_seq.0;
    let end = rx.rx_end.0;
    let size = rx.rxed_reliable_size;
    say(format_args!(
        "number {n} received: answers {answer}; acks {acks}, rx_seq {next}, rx_end {end}, rxed_reliable_size {size}"
    ));
    words.tell();
}
