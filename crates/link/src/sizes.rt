// What Sound asks of a row by itself: counts and times within their sizes.
#![tactic(auto, unfolding(crate::specs::Sizes::row_within))]

ghost use Rattle.std.specs.Prelude.{◌≡◌};
ghost use Rattle.link.specs.Sizes.{max_ping_within, ping_within, row_within};

use crate::row::LinkRow;

// Acks that may wait on a link.
pub const ACKS: usize = 64;

// The latest time, 2^56 nanoseconds: some 833 days.
pub const MAX_TIME: u64 = 0x100_0000_0000_0000;

// The largest factor of a deadline.
pub const MAX_FACTOR: u64 = 1000;

pub fn max_ping_within(max_ping: Option<u64>) -> bool
    ensures { result ≡ max_ping_within max_ping }
{
    max_ping.is_none_or(|limit| limit <= MAX_TIME)
}

fn ping_within(ping: Option<u64>, time: u64) -> bool
    ensures { result ≡ ping_within ping time }
{
    ping.is_none_or(|since| since <= time)
}

impl LinkRow {
    // Whether the row's counts and times are within their sizes, time being the last accepted one.
    pub fn is_within(self, time: u64) -> bool
        ensures { result ≡ row_within self time }
    {
        self.roundtrip <= MAX_TIME
            && max_ping_within(self.max_ping)
            && ping_within(self.current_ping_sent, time)
            && self.ack_count <= ACKS
    }
}
