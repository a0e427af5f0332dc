// What both ends share on a journey: the air between them, the time, and what is told of it.
use crate::air::{Air, Parcel, Side};
use crate::map::Map;
use crate::plan::Plan;
use crate::tally::Tally;
use msg::LinkMsg;

// A tick is a millisecond.
const TICK: u64 = 1_000_000;

// Long after the end of every run that goes well.
pub const LAST_TICK: u64 = 20_000;

#[derive(Clone, Copy)]
pub struct World {
    pub plan: Plan,
    pub air: Air,
    pub tally: Tally,
    pub map: Map,
    pub tick: u64,
}

impl World {
    pub fn new(plan: Plan) -> Self {
        Self {
            plan,
            air: Air::clear(),
            tally: Tally::NONE,
            map: Map::EMPTY,
            tick: 0,
        }
    }

    // The time of the tick, of which there are not so many that it would be cut.
    pub fn now(&self) -> u64 {
        self.tick.saturating_mul(TICK)
    }

    // Writes a message and gives it to a link.
    pub fn post(&mut self, slot: u8, to: Side, msg: LinkMsg, payload: &[u8]) {
        let mut frame = [0u8; 9];
        match msg::write(msg, &mut frame) {
            Ok(n) => {
                let written = frame.get(..n).unwrap_or(&[]);
                let parcel = Parcel::new(slot, to, written, payload);
                self.air.put(parcel, &mut self.tally);
            }
            Err(_) => self.tally.refused.add_one(),
        }
    }

    // Each end's new messages go over the links in turn.
    pub fn slot(&self) -> u8 {
        (self.tick % 3) as u8
    }
}
