// What either end does, whatever it sends: it gives messages to the links, takes what arrives, acks it, doubts a silent link,
// resends and flushes.
ghost use Rattle.std.specs.Prelude.{◌<◌, ◌^◌};

use crate::air::{Parcel, RADIO, Side, take};
use crate::plan::Plan;
use crate::tally::Tally;
use crate::world::World;
use engine::{DATA_BYTES, PACKETS, State, row_of};
use link::AckTimeout;
use msg::{LinkMsg, ReliableMsg};
use refusal::Refusal;
use seq::Seq;

// 512 numbers before the wrap.
const START: Seq = Seq(0xFFFF_FE00);

// The links' slots are 0 to 2.
const LINKS: u8 = 3;

// An ack may take four round trips, and twice as long after a resend or over the radio: from 10 to 50 ticks.
const TIMEOUT: AckTimeout = AckTimeout {
    roundtrip_factor: 4,
    resent_factor: 2,
    unreliable_factor: 2,
    min: 10_000_000,
    max: 50_000_000,
};

fn first<T>(run: &mut [T], n: usize) -> &mut [T] {
    let end = n.min(run.len());
    &mut run[..end]
}

// The bytes of a store from a place on; none where it has not so many.
fn part(store: &[u8], at: usize, length: usize) -> &[u8]
    requires bounds { (at < 2 ^ 32) × (length < 2 ^ 32) }
{
    store.get(at..at + length).unwrap_or(&[])
}

#[derive(Drop)]
pub struct End<'a> {
    side: Side,
    pub state: State,
    sent: &'a mut [u8],
    pub received: &'a mut [u8],
    pub records: &'a mut [u64],
}

impl<'a> End<'a> {
    // An end with its three links, lent as much of the stores as its cells take. Whatever they held in an earlier journey doesn't matter.
    pub fn new(
        side: Side,
        plan: Plan,
        sent: &'a mut [u8],
        received: &'a mut [u8],
        records: &'a mut [u64],
    ) -> Self {
        let cells = plan.cells as usize;
        let lent = first(records, cells);
        let state = engine::fresh(START, plan.buffer, plan.cells, lent).state;
        let mut end = End {
            side,
            state,
            sent,
            received: first(received, cells * DATA_BYTES),
            records: lent,
        };
        for identity in [1, 2, 3] {
            end.add_link(identity);
        }
        end
    }
}

impl End<'_> {
    pub fn add_link(&mut self, identity: u64) {
        self.state = engine::add(self.state, identity, 0, None, false, false).state;
    }

    pub fn remove_link(&mut self, slot: u8) {
        self.state = engine::remove(self.state, slot).state;
    }

    // Gives a message to a link, and says whether the engine takes it: a full packet table or a dead link has it wait.
    pub fn give(&mut self, world: &mut World, slot: u8, msg: ReliableMsg, payload: &[u8]) -> bool {
        let to = self.side.other();
        let out = engine::send(self.state, self.sent, slot, world.now(), msg, payload);
        let Ok(seq) = out.answer else {
            return false;
        };
        world.post(slot, to, msg.to_link_msg(seq), payload);
        self.state = out.state;
        true
    }

    fn receive(&mut self, tally: &mut Tally, parcel: &Parcel, msg: ReliableMsg, seq: Seq) {
        let expected = self.state.rx.rx_seq;
        if seq.is_before(expected) {
            tally.again.add_one();
        } else if seq != expected {
            tally.ahead.add_one();
        }
        let out = engine::receive(
            self.state,
            self.received,
            self.records,
            parcel.slot,
            msg,
            seq,
            parcel.payload(),
        );
        note_refusal(tally, out.outcome);
        self.state = out.state;
    }

    // A parcel has arrived.
    fn arrive(&mut self, tally: &mut Tally, parcel: &Parcel, now: u64) {
        let Ok(msg) = msg::read(parcel.frame()) else {
            tally.refused.add_one();
            return;
        };
        if let Some((reliable, seq)) = ReliableMsg::from_link_msg(msg) {
            self.receive(tally, parcel, reliable, seq);
            return;
        }
        let LinkMsg::Ack { received } = msg else {
            tally.refused.add_one();
            return;
        };
        let out = engine::ack(self.state, parcel.slot, now, received);
        note_refusal(tally, out.outcome);
        self.state = out.state;
    }

    // All that has arrived.
    fn arrivals(&mut self, world: &mut World) {
        let now = world.now();
        for place in world.air.places.iter_mut() {
            if let Some(parcel) = take(place, self.side) {
                self.arrive(&mut world.tally, &parcel, now);
            }
        }
    }

    // Sends the acks that wait on a link, over that link.
    fn send_acks(&mut self, world: &mut World, slot: u8) {
        let to = self.side.other();
        for _ in 0..row_of(self.state, slot).ack_count {
            let out = engine::take_ack(self.state, slot);
            let Ok(received) = out.answer else {
                return;
            };
            world.post(slot, to, LinkMsg::Ack { received }, b"");
            self.state = out.state;
        }
    }

    pub fn flush(&mut self, slot: u8, now: u64) {
        self.state = engine::flush(self.state, slot, now).state;
    }

    // A silent link is unconfirmed, so that what it has is resent elsewhere; the host then finds it in order again.
    fn doubt(&mut self, tally: &mut Tally, slot: u8) {
        tally.doubted.add_one();
        let unconfirmed = engine::unconfirm(self.state, slot).state;
        self.state = engine::confirm(unconfirmed, slot).state;
    }

    // The link of the oldest packet in flight, whether that was flushed, and its deadline. The first question tells the link, and the
    // second is asked with the word on that link: the radio's round trip says little.
    fn deadline(&self) -> Option<(u8, bool, u64)> {
        let asked = engine::earliest_confirm_timeout(self.state, TIMEOUT, false);
        let (slot, is_flushed, _) = asked.ok()??;
        let named = engine::earliest_confirm_timeout(self.state, TIMEOUT, slot == RADIO);
        let (_, _, deadline) = named.ok()??;
        Some((slot, is_flushed, deadline))
    }

    // Gives up on the link of the oldest packet in flight once its deadline has come: what was not flushed is flushed first, as the
    // original does.
    fn watch(&mut self, world: &mut World) {
        let Some((slot, is_flushed, deadline)) = self.deadline() else {
            return;
        };
        if world.now() < deadline {
            return;
        }
        if is_flushed {
            self.doubt(&mut world.tally, slot);
        } else {
            self.flush(slot, world.now());
        }
    }

    // Resends the oldest queued message over a link, where the engine allows it.
    fn resend(&mut self, world: &mut World, slot: u8) {
        if self.state.tx.resend_count == 0 {
            return;
        }
        let seq = self.state.tx.resend_queue[0];
        let out = engine::resend(self.state, slot, world.now(), seq);
        let Ok((msg, len)) = out.answer else {
            return;
        };
        world.tally.resent.add_one();
        let at = seq.0 as usize % PACKETS * DATA_BYTES;
        let to = self.side.other();
        let payload = part(self.sent, at, len as usize);
        world.post(slot, to, msg.to_link_msg(seq), payload);
        self.state = out.state;
    }

    // A tick at an end; the link whose turn it is is flushed.
    pub fn turn(&mut self, world: &mut World) {
        self.arrivals(world);
        self.watch(world);
        for slot in 0..LINKS {
            self.send_acks(world, slot);
            self.resend(world, slot);
        }
        self.flush(world.slot(), world.now());
    }
}

fn note_refusal(tally: &mut Tally, outcome: Result<(), Refusal>) {
    if outcome.is_err() {
        tally.refused.add_one();
    }
    if outcome == Err(Refusal::Window) {
        tally.window.add_one();
    }
}
