// The server's own work: it takes the tiles that are ready, looks at each and tells the scanner what it has consumed.
use crate::end::End;
use crate::map::Event;
use crate::output::Output;
use crate::picture::shade;
use crate::tally::{Count, Tally};
use crate::world::World;
use engine::State;
use msg::ReliableMsg;
use seq::Seq;
use tiles::{TILES, is_tile};

// The number of the tile that has to come next, where one has to.
fn expected_tile(tally: &Tally) -> Option<u16> {
    let good = u16::try_from(tally.good.0).ok();
    good.filter(|n| *n < TILES && tally.wrong == Count::NONE)
}

// A tile was handed out: it counts as good when it is the one that has to come next, with its bytes.
fn look(bytes: &[u8], world: &mut World, out: &mut Output) {
    match expected_tile(&world.tally) {
        Some(n) if is_tile(shade(n), n, bytes) => {
            world.tally.good.add_one();
            if !world.plan.is_stalling {
                world.map.put(n, bytes, world.tick, out);
            }
        }
        _ => world.tally.wrong.add_one(),
    }
}

// The end of the stream was handed out: nothing may be missing before it.
fn finish(tally: &mut Tally) {
    if tally.good.0 == u64::from(TILES) {
        tally.finished.add_one();
    } else {
        tally.wrong.add_one();
    }
}

// Takes a ready message and looks at it.
fn take(
    s: State,
    received: &mut [u8],
    records: &mut [u64],
    world: &mut World,
    out: &mut Output,
) -> Option<State> {
    let shown = engine::show(s, received, records);
    let taken = engine::take(s, records);
    let (msg, seq, _) = taken.answer.ok()?;
    if seq == Seq::ZERO {
        world.map.event = Some(Event::Wrapped);
    }
    match msg {
        ReliableMsg::Data => look(shown, world, out),
        ReliableMsg::SendFinish => finish(&mut world.tally),
        _ => world.tally.wrong.add_one(),
    }
    Some(taken.state)
}

// Takes every ready message: there are at most as many as cells.
fn take_ready(end: &mut End, world: &mut World, out: &mut Output) {
    for _ in 0..world.plan.cells {
        if end.state.rx.rx_oldest == end.state.rx.rx_seq {
            return;
        }
        let Some(next) = take(end.state, end.received, end.records, world, out) else {
            return;
        };
        end.state = next;
    }
}

// Tells what was taken, when that is due.
fn tell(end: &mut End, world: &mut World) {
    if engine::is_consume_ack_required(end.state).unwrap_or(false) {
        let msg = ReliableMsg::Consumed(end.state.rx.rxed_reliable_consumed);
        if end.give(world, world.slot(), msg, b"") {
            world.tally.told.add_one();
        }
    }
}

pub fn view(end: &mut End, world: &mut World, out: &mut Output) {
    let waiting = end.state.rx.rx_seq.past(end.state.rx.rx_oldest);
    world.tally.waited.raise(u64::from(waiting));
    if !world.plan.is_stalled(world.tick) {
        take_ready(end, world, out);
        tell(end, world);
    }
}
