// What the calls answered, and how often.
use refusal::Refusal;

// Why a call's answer is not that it accepts.
#[derive(Clone, Copy, PartialEq, Eq)]
pub enum Fault {
    Refused(Refusal),
    // it refused, and did not leave the state or the records as they came
    Moved,
    // it named no packet that is Sent, and the good state has one
    NoneNamed,
}

pub type Answer = Result<(), Fault>;

// The number of an outcome, 0 for success.
pub fn number_of(outcome: Result<(), Refusal>) -> u8 {
    outcome.map_or_else(Refusal::number, |()| 0)
}

// How often something happened.
#[derive(Clone, Copy)]
pub struct Count(pub u64);

impl Count {
    // Nothing here happens so often that the number would stay as it is.
    pub fn add_one(&mut self) {
        self.0 = self.0.saturating_add(1);
    }
}

// How many calls answered this to a state, as they must.
#[derive(Clone, Copy)]
pub struct Answered {
    pub store_length: Count,
    pub unsound: Count,
    pub accepted: Count,
}

impl Answered {
    pub const NONE: Self = Self {
        store_length: Count(0),
        unsound: Count(0),
        accepted: Count(0),
    };
}

#[derive(Clone, Copy)]
pub struct Tally {
    // the calls since the last line was written
    pub answered: Answered,
    // how many states were handed over, and how many of them differ from the good one
    pub states: Count,
    pub others: Count,
    // how many calls answered otherwise
    pub otherwise: Count,
}

impl Tally {
    pub const NONE: Self = Self {
        answered: Answered::NONE,
        states: Count(0),
        others: Count(0),
        otherwise: Count(0),
    };

    // A call answered. What is due is that it accepts, or refuses by StoreLength or Unsound.
    pub fn answer(&mut self, due: Result<(), Refusal>, answer: Answer) {
        if answer != due.map_err(Fault::Refused) {
            self.otherwise.add_one();
            return;
        }
        match due {
            Ok(()) => self.answered.accepted.add_one(),
            Err(Refusal::StoreLength) => self.answered.store_length.add_one(),
            Err(_) => self.answered.unsound.add_one(),
        }
    }
}
