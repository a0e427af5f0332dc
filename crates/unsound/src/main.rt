// Hands states that are not sound to every call of the engine that is given a state: each answers 1 at once, and leaves the state
// and the lent stores and records as they came. A line for each field that is set wrong, and how. Then come states that are sound but for
// what the records hold, which the calls refuse that are lent them, and the others accept; and states that are sound: what is odd in
// them stands in an empty slot or in a cell that is not in use, or Sound asks nothing of it. Every call accepts them. Last come lengths
// that are wrong, fresh states, and numbers past the end.
#![tactic(auto)]

mod fresh;
mod gaps;
mod good;
mod lengths;
mod links;
mod queue;
mod receiving;
mod records;
mod report;
mod sending;
mod set;
mod tally;
mod times;
mod totals;
mod trial;

use crate::trial::Trial;

// Those that are not sound whatever the records hold, and last those of them that nothing lent is large enough for.
fn wrong(trial: &mut Trial) {
    totals::counts(trial);
    totals::all_sums(trial);
    sending::numbers(trial);
    sending::packets(trial);
    queue::kinds(trial);
    links::kinds(trial);
    receiving::sizes(trial);
    receiving::ends_of(trial);
    receiving::counts(trial);
    receiving::refused(trial);
    times::kinds(trial);
    receiving::too_many(trial);
}

// Those that the records make wrong, and then those that are sound all the same.
fn recorded(trial: &mut Trial) {
    records::numbers(trial);
    records::ready(trial);
    records::held(trial);
    records::words(trial);
    links::empty(trial);
    sending::resent(trial);
    receiving::closed(trial);
    records::sound(trial);
}

// The calls that accept a state write to the stores, the same bytes each time, so that the copies are made after the good state's.
fn main() {
    let mut trial = Trial::new();
    trial.good();
    let sent = trial.sent;
    let received = trial.received;
    wrong(&mut trial);
    recorded(&mut trial);
    lengths::all(&mut trial);
    lengths::sent(&mut trial);
    report::store("the sent store", trial.sent == sent);
    report::store("the received store", trial.received == received);
    report::end(&trial.tally);
    fresh::all();
    gaps::all(&mut trial);
}
