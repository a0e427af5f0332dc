// What is taken after each frame.
ghost use Rattle.std.specs.Prelude.{◌≡◌};
ghost use Rattle.link.specs.Sizes.{ACKS};
ghost use Rattle.replaying.specs.Sizes.{CELLS};
ghost use Rattle.replaying.specs.Taking.{without_acks, recorded, without_ready, without_all, ended};

use crate::session::{Answered, Replay};
use crate::sizes::CELLS;
use engine::State;
use link::sizes::ACKS;

// Takes every waiting ack of link 0: there are at most ACKS. Where none waits the engine isn't asked, which would judge the whole state.
fn take_acks(s: State) -> State
    ensures { result ≡ without_acks ACKS s }
{
    let mut out = s;
    for _ in 0..ACKS {
        if engine::row_of(out, 0).ack_count == 0 {
            return out;
        }
        let taken = engine::take_ack(out, 0);
        if taken.answer.is_err() {
            return out;
        }
        out = taken.state;
    }
    out
}

// Takes every ready message: there are at most CELLS. Nothing is ready where the oldest number is the next expected.
fn take_ready(s: State, records: &mut [u64]) -> State
    ensures { recorded result records.new ≡ without_ready CELLS (recorded s records.old) }
{
    let mut out = s;
    for _ in 0..CELLS {
        if out.rx.rx_oldest == out.rx.rx_seq {
            return out;
        }
        let taken = engine::take(out, records);
        if taken.answer.is_err() {
            return out;
        }
        out = taken.state;
    }
    out
}

// The end of a frame: what is to be taken is taken, and the frame gets its line.
pub fn end_frame(number: u8, s: State, records: &mut [u64]) -> Answered
    ensures value { result ≡ ended number (recorded s records.old) }
    ensures records_after { records.new ≡ (without_all (recorded s records.old)).records }
{
    let state = take_ready(take_acks(s), records);
    Answered {
        answer: Some((number, state.rx.rx_seq)),
        replay: Replay {
            state,
            waiting: None,
        },
    }
}
