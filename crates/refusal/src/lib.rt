// The refusals of document 01 by name, with their numbers. Every call of every layer refuses by one of these.
#![tactic(auto)]

pub mod verdict;

ghost use Rattle.std.specs.Prelude.{◌≡◌};
ghost use Rattle.refusal.specs.Refusals.{number_of};

pub use verdict::refuse_unless;

// Why a call is refused, under its number, 1 to 23; 18 stays unused.
#[derive(Clone, Copy, PartialEq, Eq)]
pub enum Refusal {
    // the state handed in is not sound
    Unsound = 1,
    // a lent store in use is not 65,536 bytes
    StoreLength = 2,
    // time before the last accepted one, or any time above 2^56
    Time = 3,
    // slot above 7, or empty
    Slot = 4,
    // no empty link slot
    NoSlot = 5,
    // the identity belongs to a live link
    Identity = 6,
    // data above 1,024 bytes, data with a kind other than Data, or an output buffer too short
    Length = 7,
    // Data or SendFinish given after own SendFinish or a received ReceiveFinish
    Finished = 8,
    // a total would pass 2^32 − 1; or a Consumed given with 0 or more than the bytes taken and untold
    Total = 9,
    // 64 packets in the table
    Full = 10,
    // offset above 65,536
    Offset = 11,
    // a new number 64 or more past the oldest ready message (past the next expected if none is ready)
    Window = 12,
    // the link has 64 acks waiting
    Acks = 13,
    // untaken data would exceed the receive buffer
    Buffer = 14,
    // a received Consumed with a new number exceeds the unconsumed total
    Consumed = 15,
    // the number to resend isn't queued
    NotQueued = 16,
    // resend on a link with the identity it was last sent on
    SameIdentity = 17,
    // nothing to take
    Nothing = 19,
    // message bytes not as they must be
    Bytes = 20,
    // receive buffer 0 or above 65,536; of a deadline, bad factors or bounds
    Setting = 21,
    // a number 2^30 or more from the one it is judged against, either way
    Far = 22,
    // a recording has more than 1,024 numbers
    Many = 23,
}

impl Refusal {
    pub fn number(self) -> u8
        ensures { result ≡ number_of self }
    {
        self as u8
    }
}
