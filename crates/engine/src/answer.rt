// What a call answers that gives nothing but a state.
ghost use Rattle.std.specs.Prelude.{◌≡◌};
ghost use Rattle.engine.specs.Answer.{changed_by};

use crate::state::State;
use refusal::Refusal;

#[derive(Clone, Copy)]
pub struct Changed {
    pub outcome: Result<(), Refusal>,
    pub state: State,
}

impl Changed {
    // A refused call leaves the state as it came.
    pub(crate) fn refused(e: Refusal, s: State) -> Changed
        ensures { result ≡ changed_by (Err e) s s }
    {
        Changed {
            outcome: Err(e),
            state: s,
        }
    }

    pub(crate) fn done(next: State) -> Changed
        ensures { result ≡ changed_by (Ok tt) next next }
    {
        Changed {
            outcome: Ok(()),
            state: next,
        }
    }
}

// The next state where the verdict lets the call pass, else the state as it came.
pub(crate) fn change(verdict: Result<(), Refusal>, s: State, next: State) -> Changed
    ensures { result ≡ changed_by verdict s next }
{
    match verdict {
        Ok(()) => Changed::done(next),
        Err(e) => Changed::refused(e, s),
    }
}
