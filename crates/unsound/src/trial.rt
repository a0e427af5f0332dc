// Every call of the engine that is given a state, with arguments that the good state accepts, and whether it answers what is due.
use crate::good::{
    FIRST, Lent, ROOM, ROOM_BYTES, ReceivedStore, Records, SentStore, first, first_mut,
};
use crate::tally::{Answer, Answered, Fault, Tally};
use crate::{good, report};
use engine::{Changed, DATA_BYTES, SENT_BYTES, State};
use link::AckTimeout;
use msg::ReliableMsg;
use refusal::{Refusal, refuse_unless};
use seq::Seq;

type Due = Result<(), Refusal>;

// What the calls that are lent the records are to answer, and what the others.
#[derive(Clone, Copy)]
pub struct Dues {
    with: Due,
    without: Due,
}

pub const ACCEPTED: Dues = Dues {
    with: Ok(()),
    without: Ok(()),
};

pub const UNSOUND: Dues = Dues {
    with: Err(Refusal::Unsound),
    without: Err(Refusal::Unsound),
};

// 2 comes before 1.
pub const TOO_LARGE: Dues = Dues {
    with: Err(Refusal::StoreLength),
    without: Err(Refusal::Unsound),
};

pub const BAD_RECORDS: Dues = Dues {
    with: Err(Refusal::Unsound),
    without: Ok(()),
};

// A time after the good state's.
const NOW: u64 = 9;

// A refusal has to leave the state as it came.
fn told<T: Drop>(answer: Result<T, Refusal>, before: &State, after: &State) -> Answer {
    match answer {
        Ok(_) => Ok(()),
        Err(refusal) => {
            if *before == *after {
                Err(Fault::Refused(refusal))
            } else {
                Err(Fault::Moved)
            }
        }
    }
}

fn changed(s: &State, out: &Changed) -> Answer {
    told(out.outcome, s, &out.state)
}

// .. and the records.
fn with_records(answer: Answer, before: &Records, now: &Records) -> Answer {
    if answer.is_err() && *now != *before {
        Err(Fault::Moved)
    } else {
        answer
    }
}

// What an answer that carries no number stands for, and what is due of it.
fn plain(is: bool) -> Answer {
    refuse_unless(is, Refusal::Unsound).map_err(Fault::Refused)
}

fn plain_due(due: Due) -> Due {
    due.map_err(|_| Refusal::Unsound)
}

fn add(s: &State) -> Answer {
    let out = engine::add(*s, 14, 50, None, false, false);
    told(out.answer, s, &out.state)
}

fn send(s: &State, sent: &mut [u8], payload: &[u8]) -> Answer {
    let out = engine::send(*s, sent, 0, NOW, ReliableMsg::Data, payload);
    told(out.answer, s, &out.state)
}

// Number 0 was last sent over slot 2.
fn resend(s: &State) -> Answer {
    let out = engine::resend(*s, 0, NOW, Seq(0));
    told(out.answer, s, &out.state)
}

fn deadline(s: &State) -> Answer {
    let timeout = AckTimeout {
        roundtrip_factor: 2,
        resent_factor: 3,
        unreliable_factor: 4,
        min: 5,
        max: 6,
    };
    match engine::earliest_confirm_timeout(*s, timeout, true) {
        Ok(named) => named.map(|_| ()).ok_or(Fault::NoneNamed),
        Err(refusal) => Err(Fault::Refused(refusal)),
    }
}

fn take_ack(s: &State) -> Answer {
    let out = engine::take_ack(*s, 0);
    told(out.answer, s, &out.state)
}

// The good state and the stores that it was made with, and what the calls answered so far.
#[derive(Clone, Copy)]
pub struct Trial {
    pub state: State,
    pub sent: SentStore,
    pub received: ReceivedStore,
    pub records: Records,
    pub tally: Tally,
}

impl Trial {
    pub fn new() -> Self {
        let mut sent = [0u8; SENT_BYTES];
        let mut received = [0u8; ROOM_BYTES];
        let mut records = [0u64; ROOM];
        let state = good::state(&mut sent, &mut received, &mut records);
        Self {
            state,
            sent,
            received,
            records,
            tally: Tally::NONE,
        }
    }

    // The calls that are lent no store and no records.
    fn to_links(&mut self, due: Due, s: &State) {
        let tally = &mut self.tally;
        tally.answer(due, add(s));
        tally.answer(due, changed(s, &engine::remove(*s, 0)));
        tally.answer(due, changed(s, &engine::confirm(*s, 2)));
        tally.answer(due, changed(s, &engine::unconfirm(*s, 0)));
        tally.answer(due, changed(s, &engine::block(*s, 0, true)));
        tally.answer(due, changed(s, &engine::mark(*s, 0, Seq(0))));
        tally.answer(due, changed(s, &engine::ping(*s, 0, NOW)));
        tally.answer(due, changed(s, &engine::pong(*s, 1, NOW)));
    }

    // A call that is to refuse is given more bytes than one that is to accept: the store shows if it wrote them.
    fn to_packets(&mut self, due: Due, s: &State) {
        let payload: &[u8] = if due.is_ok() { b"more" } else { b"refused" };
        let tally = &mut self.tally;
        tally.answer(due, changed(s, &engine::flush(*s, 0, NOW)));
        tally.answer(due, send(s, &mut self.sent, payload));
        tally.answer(due, resend(s));
        tally.answer(due, deadline(s));
        tally.answer(due, changed(s, &engine::ack(*s, 0, NOW, Seq(FIRST))));
    }

    fn to_rest(&mut self, due: Due, s: &State) {
        let is_due = engine::is_consume_ack_required(*s);
        let tally = &mut self.tally;
        tally.answer(due, take_ack(s));
        tally.answer(due, is_due.map(|_| ()).map_err(Fault::Refused));
        tally.answer(due, changed(s, &engine::close_reader(*s)));
        tally.answer(due, plain(engine::is_sound(*s)));
    }

    fn receive(&mut self, due: Due, s: &State, records: &Records, lent: Lent) {
        let payload: &[u8] = if due.is_ok() { b"MORE" } else { b"REFUSED" };
        let mut now = *records;
        let out = good::receive(s, &mut self.received, &mut now, lent, 0, payload);
        let answer = with_records(changed(s, &out), records, &now);
        self.tally.answer(due, answer);
    }

    fn show(&mut self, due: Due, s: &State, records: &Records, lent: Lent) {
        let store = first(&self.received, lent.bytes);
        let words = first(records, lent.words);
        let showing = engine::showing(*s, store, words);
        let part = engine::show(*s, store, words);
        let tally = &mut self.tally;
        tally.answer(due, showing.map(|_| ()).map_err(Fault::Refused));
        tally.answer(plain_due(due), plain(!part.is_empty()));
    }

    fn take(&mut self, due: Due, s: &State, records: &Records, lent: Lent) {
        let mut now = *records;
        let out = good::take(s, &mut now, lent.words);
        let answer = with_records(told(out.answer, s, &out.state), records, &now);
        self.tally.answer(due, answer);
    }

    // The calls that are lent the records: what those answer that are lent the received store too, and what those that are not.
    pub fn to_records(&mut self, shown: Due, taken: Due, s: &State, records: &Records, lent: Lent) {
        self.receive(shown, s, records, lent);
        self.show(shown, s, records, lent);
        self.take(taken, s, records, lent);
        let sound = good::is_sound(s, records, lent.words);
        self.tally.answer(plain_due(taken), plain(sound));
    }

    // The calls to send with a sent store of so many bytes, for which the received one stands, since it can be longer.
    pub fn to_send(&mut self, bytes: usize, s: &State) {
        let answer = send(s, first_mut(&mut self.received, bytes), b"refused");
        self.tally.answer(Err(Refusal::StoreLength), answer);
    }

    // Ends the line of the calls since the last one.
    pub fn line(&mut self) {
        report::line(self.tally.answered);
        self.tally.answered = Answered::NONE;
    }

    // Every call is to answer as is due, and the line says how many do. They are lent what the state's cell count asks for, or as much as
    // there is.
    fn every(&mut self, due: Dues, s: &State, records: &Records) {
        let words = (s.rx.cells as usize).min(ROOM);
        let lent = Lent {
            bytes: words * DATA_BYTES,
            words,
        };
        self.to_links(due.without, s);
        self.to_packets(due.without, s);
        self.to_rest(due.without, s);
        self.to_records(due.with, due.with, s, records, lent);
        self.line();
        self.tally.states.add_one();
    }

    pub fn good(&mut self) {
        report::say("the good state");
        let state = self.state;
        let records = self.records;
        self.every(ACCEPTED, &state, &records);
    }

    // The good state with something set otherwise, in it or in the records.
    pub fn kind<F: FnOnce(&mut State, &mut Records)>(&mut self, name: &str, due: Dues, set: F)
        requires { F.IsAlwaysCallable set }
    {
        let mut state = self.state;
        let mut records = self.records;
        set(&mut state, &mut records);
        report::say(name);
        if state != self.state || records != self.records {
            self.tally.others.add_one();
        }
        self.every(due, &state, &records);
    }
}
