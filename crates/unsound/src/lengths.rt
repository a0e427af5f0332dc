// Stores and records of another length than the state asks for: 2, which comes before 1.
use crate::good::{BYTES, LENT, Lent, WORDS};
use crate::report::say;
use crate::trial::Trial;
use engine::State;
use refusal::Refusal;

// Taking is not lent the store: it answers 2 if the records are of another length, and else what is due.
fn each(t: &mut Trial, lent: Lent, due: Result<(), Refusal>, s: &State) {
    let records = t.records;
    let taken = if lent.words == WORDS {
        due
    } else {
        Err(Refusal::StoreLength)
    };
    t.to_records(Err(Refusal::StoreLength), taken, s, &records, lent);
    t.line();
}

// A state that is not sound.
fn unsound(t: &Trial) -> State {
    let mut s = t.state;
    s.tx.txed_count = 65;
    s
}

// The good state, and then one that is not sound.
pub fn all(t: &mut Trial) {
    let good = t.state;
    let unsound = unsound(t);
    let bytes = |bytes| Lent { bytes, ..LENT };
    let words = |words| Lent { words, ..LENT };
    for (name, lent) in [
        ("the received store a byte less", bytes(BYTES - 1)),
        ("the received store a byte more", bytes(BYTES + 1)),
        ("the received store a cell less", bytes(BYTES - 1024)),
        ("no received store", bytes(0)),
        (
            "the received store of twice the cells",
            bytes(BYTES + BYTES),
        ),
        ("a record less", words(WORDS - 1)),
        ("a record more", words(WORDS + 1)),
        ("no records", words(0)),
        ("twice the records", words(WORDS + WORDS)),
    ] {
        say(name);
        each(t, lent, Ok(()), &good);
        say(name);
        say(", with a state that is not sound");
        each(t, lent, Err(Refusal::Unsound), &unsound);
    }
}

fn send_each(t: &mut Trial, s: &State) {
    for bytes in [BYTES - 1, BYTES + 1, 0] {
        t.to_send(bytes, s);
    }
    t.line();
}

pub fn sent(t: &mut Trial) {
    let name = "a sent store of a byte less, of a byte more and of none";
    let good = t.state;
    let unsound = unsound(t);
    say(name);
    send_each(t, &good);
    say(name);
    say(", with a state that is not sound");
    send_each(t, &unsound);
}
