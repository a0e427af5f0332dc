// The two ends, the fate of cable 2, and the passing of time.
use crate::air::CABLE_2;
use crate::end::End;
use crate::map::Event;
use crate::output::Output;
use crate::tally::Count;
use crate::world::{LAST_TICK, World};
use crate::{scanner, server};
use engine::{PACKETS, State};
use seq::Seq;

// When cable 2 dies and when it comes back.
const DEATH: u64 = 700;

const RETURN: u64 = 1400;

// The number of the oldest message that an end keeps until it is acked.
fn oldest_kept(s: &State) -> Seq {
    let kept = s.tx.txed_count;
    if PACKETS < kept {
        return s.tx.tx_seq;
    }
    s.tx.tx_seq.sub(kept as u32)
}

#[derive(Drop)]
pub struct Journey<'a> {
    pub scanner: End<'a>,
    pub server: End<'a>,
}

impl Journey<'_> {
    // The fate of cable 2.
    fn fate(&mut self, world: &mut World) {
        match world.tick {
            DEATH => {
                world.air.cut(CABLE_2, &mut world.tally);
                world.map.event = Some(Event::Died);
                self.scanner.remove_link(CABLE_2);
                self.server.remove_link(CABLE_2);
            }
            RETURN => {
                world.map.event = Some(Event::Returned);
                self.scanner.add_link(4);
                self.server.add_link(4);
            }
            _ => {}
        }
    }

    // Whether the server has no cell for the oldest message that the scanner keeps: until something is taken, that is resent in vain.
    fn is_barred(&self) -> bool {
        let rx = self.server.state.rx;
        let oldest = oldest_kept(&self.scanner.state);
        !oldest.is_before(rx.rx_oldest) && rx.cells <= oldest.past(rx.rx_oldest)
    }

    // A tick at the scanner. Where it stands still, of what it can't give, this tells the stall's part from the weather's.
    fn scanner_turn(&mut self, world: &mut World) {
        self.scanner.turn(world);
        if !scanner::is_still(&self.scanner.state, &world.tally, world.plan.buffer) {
            scanner::scan(&mut self.scanner, world);
        } else if self.is_barred() {
            world.tally.barred.add_one();
        } else {
            world.tally.late.add_one();
        }
    }

    // A tick of the whole: the weather, before the ends do anything, and then the ends.
    fn pass_tick(&mut self, world: &mut World, out: &mut Output) {
        world.tally.ticks.add_one();
        world.air.pass(&mut world.tally);
        self.fate(world);
        self.scanner_turn(world);
        self.server.turn(world);
        server::view(&mut self.server, world, out);
    }

    fn are_empty(&self) -> bool {
        self.scanner.state.tx.txed_count == 0 && self.server.state.tx.txed_count == 0
    }

    // Runs until the stream's end was handed out and nothing is left to be acked, and says whether it came to that.
    pub fn run(&mut self, world: &mut World, out: &mut Output) -> bool {
        for tick in 0..LAST_TICK {
            world.tick = tick;
            self.pass_tick(world, out);
            if world.tally.finished != Count::NONE && self.are_empty() {
                return true;
            }
        }
        false
    }
}
