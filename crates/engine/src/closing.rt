// The reader closes.
ghost use Rattle.std.specs.Prelude.{◌≡◌, []};
ghost use Rattle.refusal.specs.Answers.{told_by};
ghost use Rattle.engine.specs.Answer.{outcome_told};
ghost use Rattle.engine.specs.Gates.{state_verdict};
ghost use Rattle.engine.specs.Closing.{close_of};

use crate::answer::{Changed, change};
use crate::sound::is_sound;
use crate::state::State;
use refusal::{Refusal, refuse_unless};

// Closes the reader for good; one that has closed stays so.
pub fn close_reader(s: State) -> Changed
    ensures value { result ≡ close_of s }
    ensures outcome_value { outcome_told result.outcome ≡ told_by (state_verdict s) [] }
{
    let verdict = refuse_unless(is_sound(s), Refusal::Unsound);
    let closed = State {
        read_open: false,
        ..s
    };
    change(verdict, s, closed)
}
