// What a replay keeps between two lines, what a line answers, and how a replay begins.
ghost use Rattle.std.specs.Prelude.{◌≡◌, length};
ghost use Rattle.replaying.specs.Session.{begun, begun_records};

use crate::sizes::{CELLS, RECEIVED_BYTES};
use engine::State;
use seq::Seq;

#[derive(Clone, Copy)]
pub struct Replay {
    pub state: State,
    // the number of the Data whose frame was read and whose payload the next line is; none where the next line is a frame
    pub waiting: Option<Seq>,
}

// What a replay is between two pieces of its input: a host passes it on as it came. The bytes of the unfinished line lie in the buffer
// that the host lends; a count above 2,080 marks a line that is too long.
#[derive(Clone, Copy)]
pub struct Session {
    pub replay: Replay,
    pub count: usize,
}

#[derive(Clone, Copy)]
pub struct Answered {
    // a refusal number, or 0, and the next expected number; none where no frame has ended
    pub answer: Option<(u8, Seq)>,
    pub replay: Replay,
}

// A session, and its records, which are empty then. The round trip, the identity and the flags of link 0 reach no answer: nothing is sent here.
pub fn begin(records: &mut [u64]) -> Session
    ensures value { result ≡ begun (length records.old) }
    ensures records_after { records.new ≡ begun_records records.old }
{
    let made = engine::fresh(Seq::ZERO, RECEIVED_BYTES as u32, CELLS as u32, records);
    let added = engine::add(made.state, 0, 0, None, false, false);
    Session {
        replay: Replay {
            state: added.state,
            waiting: None,
        },
        count: 0,
    }
}
