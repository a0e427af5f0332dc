// Sends a slide from one end to the other, both of them the proved engine, over three links that lose, repeat, delay and reorder
// frames, one of which dies and comes back under another identity; the numbers wrap on the way. Then twice more for a viewer whose
// disk stalls, with few receive cells and with many.
#![tactic(auto)]

ghost use Rattle.std.specs.Prelude.{◌<◌, ◌^◌};

mod air;
mod chance;
mod end;
mod journey;
mod map;
mod output;
mod picture;
mod plan;
mod report;
mod scanner;
mod server;
mod tally;
mod world;

use crate::air::Side;
use crate::end::End;
use crate::journey::Journey;
use crate::output::Output;
use crate::plan::{JOURNEYS, LARGE, LARGE_BYTES, PLAIN, Plan, SMALL, SMALL_BYTES};
use crate::world::World;
use engine::SENT_BYTES;

// The stores that an end may be lent, and its records: room for so many cells.
#[derive(Drop)]
struct Stores<'a, const CELLS: usize, const BYTES: usize> {
    sent: &'a mut [u8; SENT_BYTES],
    received: &'a mut [u8; BYTES],
    records: &'a mut [u64; CELLS],
}

impl<'a, const CELLS: usize, const BYTES: usize> Stores<'a, CELLS, BYTES> {
    fn end(self, side: Side, plan: Plan) -> End<'a>
        requires cells { CELLS < 2 ^ 32 }
        requires bytes { BYTES < 2 ^ 32 }
    {
        let Stores {
            sent,
            received,
            records,
        } = self;
        End::new(side, plan, sent, received, records)
    }
}

fn tell(
    plan: Plan,
    scanner: Stores<SMALL, SMALL_BYTES>,
    server: Stores<LARGE, LARGE_BYTES>,
    out: &mut Output,
) {
    let mut world = World::new(plan);
    let mut journey = Journey {
        scanner: scanner.end(Side::Scanner, PLAIN),
        server: server.end(Side::Server, plan),
    };
    report::heading(plan, out);
    let is_empty = journey.run(&mut world, out);
    report::report(plan, &world.tally, is_empty, out);
}

// The stores are made here, once, and lent to the journeys in turn: what an earlier one left in them doesn't matter.
fn main() {
    let mut scanner_sent = [0u8; SENT_BYTES];
    let mut scanner_received = [0u8; SMALL_BYTES];
    let mut scanner_records = [0u64; SMALL];
    let mut server_sent = [0u8; SENT_BYTES];
    let mut server_received = [0u8; LARGE_BYTES];
    let mut server_records = [0u64; LARGE];
    let mut out = Output::NEW;
    for plan in JOURNEYS {
        let scanner = Stores {
            sent: &mut scanner_sent,
            received: &mut scanner_received,
            records: &mut scanner_records,
        };
        let server = Stores {
            sent: &mut server_sent,
            received: &mut server_received,
            records: &mut server_records,
        };
        tell(plan, scanner, server, &mut out);
    }
    out.close();
}
