// Runs each call, and prints what it answers.
use crate::call::{Call, MOST_RECORDS_LENT, MOST_ROOM, MOST_SENT_LENT, OnState, parse};
use crate::dump::{self, PACKET_ROUND};
use crate::message::Told;
use crate::out::{Cell, Hex, Out};
use crate::rows;
use engine::{Changed, DATA_BYTES, SENT_BYTES, State};
use link::AckTimeout;
use msg::{LinkMsg, ReliableMsg};
use refusal::Refusal;
use seq::Seq;

// The sent store and the records, each with the one more that may be lent. The received store has room for the cells of the state.
pub type SentStore = [u8; MOST_SENT_LENT];

pub type Records = [u64; MOST_RECORDS_LENT];

// The bytes of a call, and the buffer that `write` writes to.
pub type Payload = [u8; MOST_ROOM];

// What the buffer that `write` lends is filled with.
const FILLER: u8 = 0xee;

// The first n, or all where there are fewer.
pub fn first<T>(run: &[T], n: usize) -> &[T] {
    &run[..n.min(run.len())]
}

fn first_mut<T>(run: &mut [T], n: usize) -> &mut [T] {
    let end = n.min(run.len());
    &mut run[..end]
}

// The bytes of a call. What the check knows of an array that a function made itself is too much for it to lend a part of it there.
fn of_payload(payload: &Payload, length: usize) -> &[u8] {
    first(payload, length)
}

// With how many bytes the stores are lent, and how many records, where a `lend` said so; else with as many as they have.
#[derive(Clone, Copy)]
struct Lent {
    sent: Option<usize>,
    received: Option<usize>,
    records: Option<usize>,
}

impl Lent {
    const ALL: Self = Self {
        sent: None,
        received: None,
        records: None,
    };
}

// An end, and what its calls are lent; but for the received store, which is in one room or another.
#[derive(Drop)]
pub struct End<'a> {
    // none until a `fresh` was accepted
    state: Option<State>,
    lent: Lent,
    payload: &'a mut Payload,
    sent: &'a mut SentStore,
    records: &'a mut Records,
    pub out: Out<'a>,
}

impl<'a> End<'a> {
    pub fn new(
        payload: &'a mut Payload,
        sent: &'a mut SentStore,
        records: &'a mut Records,
        out: Out<'a>,
    ) -> Self {
        Self {
            state: None,
            lent: Lent::ALL,
            payload,
            sent,
            records,
            out,
        }
    }
}

impl End<'_> {
    // Whether the cells take more than a received store of so many bytes.
    pub fn has_outgrown(&self, room: usize) -> bool {
        match &self.state {
            Some(s) => room < s.rx.cells as usize * DATA_BYTES,
            None => false,
        }
    }

    // The answer to what is not a call of the table.
    pub fn unknown(&mut self) {
        self.out.say("?\n");
    }

    // Success, with nothing to tell.
    fn done(&mut self) -> Result<(), Refusal> {
        self.out.say("0\n");
        Ok(())
    }

    // .. and with a number.
    fn told(&mut self, n: u64) -> Result<(), Refusal> {
        self.out.say(format_args!("0 {n}\n"));
        Ok(())
    }

    fn changed(&mut self, out: Changed) -> Result<(), Refusal> {
        self.state = Some(out.state);
        out.outcome?;
        self.done()
    }

    // This and the calls below stand apart from one another: a function clears at its head all that it keeps, states among it, and in
    // one function with the others each would clear what they all keep.
    #[inline(never)]
    fn change<F: FnOnce(State) -> Changed>(&mut self, s: &State, call: F) -> Result<(), Refusal>
        requires { F.IsAlwaysCallable call }
    {
        let out = call(*s);
        self.changed(out)
    }

    // It is lent as many records as it asks for, unless a `lend` said how many. Where it asks for more than there are, it is lent all, and
    // refused before they are counted. An accepted one starts over with stores of zero bytes: of the received one, the bytes of its cells.
    fn fresh(
        &mut self,
        start: Seq,
        buffer: u32,
        cells: u32,
        received: &mut [u8],
    ) -> Result<(), Refusal> {
        let lent = self.lent.records.unwrap_or(cells as usize);
        let out = engine::fresh(start, buffer, cells, first_mut(self.records, lent));
        out.outcome?;
        self.state = Some(out.state);
        self.lent = Lent::ALL;
        self.sent.fill(0);
        first_mut(received, cells as usize * DATA_BYTES).fill(0);
        self.done()
    }

    fn read(&mut self, length: usize) -> Result<(), Refusal> {
        let told = Told(msg::read(first(self.payload, length))?);
        self.out.say(format_args!("0 {told}\n"));
        Ok(())
    }

    fn write(&mut self, room: usize, msg: LinkMsg) -> Result<(), Refusal> {
        self.payload.fill(FILLER);
        let length = msg::write(msg, first_mut(self.payload, room))?;
        let written = Hex(first(self.payload, length));
        self.out.say(format_args!("0 {written}\n"));
        Ok(())
    }

    #[inline(never)]
    fn send(
        &mut self,
        s: &State,
        slot: u8,
        time: u64,
        msg: ReliableMsg,
        length: usize,
    ) -> Result<(), Refusal> {
        let lent = self.lent.sent.unwrap_or(SENT_BYTES);
        let payload = *self.payload;
        let bytes = of_payload(&payload, length);
        let store = first_mut(self.sent, lent);
        let out = engine::send(*s, store, slot, time, msg, bytes);
        self.state = Some(out.state);
        self.told(u64::from(out.answer?.0))
    }

    #[inline(never)]
    fn resend(&mut self, s: &State, slot: u8, time: u64, seq: Seq) -> Result<(), Refusal> {
        let out = engine::resend(*s, slot, time, seq);
        self.state = Some(out.state);
        let (msg, length) = out.answer?;
        let kind = msg.kind();
        let count = msg.count();
        let cell = Cell::of(self.sent, seq.0 % PACKET_ROUND, length);
        self.out
            .say(format_args!("0 {kind} {count} {length} {cell}\n"));
        Ok(())
    }

    // How much of the received store is lent, and how many of the records.
    fn lent_to(&self, s: &State) -> (usize, usize) {
        let cells = s.rx.cells as usize;
        (
            self.lent.received.unwrap_or(cells * DATA_BYTES),
            self.lent.records.unwrap_or(cells),
        )
    }

    #[inline(never)]
    fn receive(
        &mut self,
        s: &State,
        slot: u8,
        msg: ReliableMsg,
        seq: Seq,
        length: usize,
        received: &mut [u8],
    ) -> Result<(), Refusal> {
        let payload = *self.payload;
        let bytes = of_payload(&payload, length);
        let (most, count) = self.lent_to(s);
        let store = first_mut(received, most);
        let records = first_mut(self.records, count);
        let out = engine::receive(*s, store, records, slot, msg, seq, bytes);
        self.changed(out)
    }

    #[inline(never)]
    fn show(&mut self, s: &State, received: &[u8]) -> Result<(), Refusal> {
        let (bytes, count) = self.lent_to(s);
        let store = first(received, bytes);
        let records = first(self.records, count);
        engine::showing(*s, store, records)?;
        let part = Hex(engine::show(*s, store, records));
        self.out.say(format_args!("0 {part}\n"));
        Ok(())
    }

    #[inline(never)]
    fn take(&mut self, s: &State) -> Result<(), Refusal> {
        let (_, count) = self.lent_to(s);
        let out = engine::take(*s, first_mut(self.records, count));
        self.state = Some(out.state);
        let (msg, seq, length) = out.answer?;
        let kind = msg.kind();
        let n = seq.0;
        self.out.say(format_args!("0 {kind} {n} {length}\n"));
        Ok(())
    }

    #[inline(never)]
    fn take_ack(&mut self, s: &State, slot: u8) -> Result<(), Refusal> {
        let out = engine::take_ack(*s, slot);
        self.state = Some(out.state);
        self.told(u64::from(out.answer?.0))
    }

    #[inline(never)]
    fn add(
        &mut self,
        s: &State,
        identity: u64,
        trip: u64,
        max: Option<u64>,
        is_blocked: bool,
        is_unconfirmed: bool,
    ) -> Result<(), Refusal> {
        let out = engine::add(*s, identity, trip, max, is_blocked, is_unconfirmed);
        self.state = Some(out.state);
        self.told(u64::from(out.answer?))
    }

    #[inline(never)]
    fn deadline(&mut self, s: &State, timeout: AckTimeout, is_bad: bool) -> Result<(), Refusal> {
        match engine::earliest_confirm_timeout(*s, timeout, is_bad)? {
            Some((slot, is_flushed, deadline)) => {
                let flushed = u8::from(is_flushed);
                self.out
                    .say(format_args!("0 {slot} {flushed} {deadline}\n"));
                Ok(())
            }
            None => self.done(),
        }
    }

    #[inline(never)]
    fn slow(&mut self, s: &State, rows: usize) -> Result<(), Refusal> {
        let links = rows::slow(&s.links, rows)?;
        self.out.say("0");
        for slot in first(&links.slots, links.count) {
            self.out.say(format_args!(" {slot}"));
        }
        self.out.say("\n");
        Ok(())
    }

    #[inline(never)]
    fn due(&mut self, s: &State) -> Result<(), Refusal> {
        self.told(u64::from(engine::is_consume_ack_required(*s)?))
    }

    fn lend(&mut self, lent: Lent) -> Result<(), Refusal> {
        self.lent = lent;
        self.done()
    }

    #[inline(never)]
    fn dump(&mut self, s: &State, received: &[u8]) -> Result<(), Refusal> {
        dump::all(&mut self.out, s, self.sent, received, self.records);
        Ok(())
    }

    fn on_state(&mut self, s: &State, call: OnState, received: &mut [u8]) -> Result<(), Refusal> {
        let lent = self.lent;
        match call {
            OnState::Add(identity, trip, max, is_blocked, is_unconfirmed) => {
                self.add(s, identity, trip, max, is_blocked, is_unconfirmed)
            }
            OnState::Remove(slot) => self.change(s, |s| engine::remove(s, slot)),
            OnState::Confirm(slot) => self.change(s, |s| engine::confirm(s, slot)),
            OnState::Unconfirm(slot) => self.change(s, |s| engine::unconfirm(s, slot)),
            OnState::Block(slot, blocked) => self.change(s, |s| engine::block(s, slot, blocked)),
            OnState::Ping(slot, time) => self.change(s, |s| engine::ping(s, slot, time)),
            OnState::Flush(slot, time) => self.change(s, |s| engine::flush(s, slot, time)),
            OnState::Pong(slot, time) => self.change(s, |s| engine::pong(s, slot, time)),
            OnState::Mark(slot, seq) => self.change(s, |s| engine::mark(s, slot, seq)),
            OnState::Ack(slot, time, seq) => self.change(s, |s| engine::ack(s, slot, time, seq)),
            OnState::TakeAck(slot) => self.take_ack(s, slot),
            OnState::Due => self.due(s),
            OnState::Close => self.change(s, engine::close_reader),
            OnState::Deadline(timeout, is_bad) => self.deadline(s, timeout, is_bad),
            OnState::Slow(rows) => self.slow(s, rows),
            OnState::LendSent(n) => self.lend(Lent {
                sent: Some(n),
                ..lent
            }),
            OnState::LendReceived(n) => self.lend(Lent {
                received: Some(n),
                ..lent
            }),
            OnState::LendRecords(n) => self.lend(Lent {
                records: Some(n),
                ..lent
            }),
            OnState::Send(slot, time, msg, n) => self.send(s, slot, time, msg, n),
            OnState::Resend(slot, time, seq) => self.resend(s, slot, time, seq),
            OnState::Receive(slot, msg, seq, n) => self.receive(s, slot, msg, seq, n, received),
            OnState::Show => self.show(s, received),
            OnState::Take => self.take(s),
            OnState::Dump => self.dump(s, received),
        }
    }

    // Answers a line.
    pub fn answer(&mut self, line: &[u8], received: &mut [u8]) {
        let Some(call) = parse(line, self.payload) else {
            return self.unknown();
        };
        let answered = match call {
            Call::Fresh(start, buffer, cells) => self.fresh(start, buffer, cells, received),
            Call::Read(n) => self.read(n),
            Call::Write(room, msg) => self.write(room, msg),
            Call::OnState(call) => match self.state {
                Some(s) => self.on_state(&s, call, received),
                None => return self.unknown(),
            },
        };
        if let Err(refusal) = answered {
            let n = refusal.number();
            self.out.say(format_args!("{n}\n"));
        }
    }
}
