// The per-row tests of "Slow links".
#![tactic(auto, unfolding(crate::specs::Slow::confirmed_link, crate::specs::Slow::above_max_ping, crate::specs::Slow::slow_row))]

ghost use Rattle.std.specs.Prelude.{◌≡◌};
ghost use Rattle.link.specs.Slow.{confirmed_link, above_max_ping, slow_row};

use crate::row::LinkRow;

impl LinkRow {
    pub fn is_confirmed(self) -> bool
        ensures { result ≡ confirmed_link self }
    {
        self.live && !self.unconfirmed
    }

    pub fn is_above_max_ping(self) -> bool
        ensures { result ≡ above_max_ping self }
    {
        self.max_ping.is_some_and(|limit| limit < self.roundtrip)
    }

    pub fn is_slow(self) -> bool
        ensures { result ≡ slow_row self }
    {
        self.blocked || self.max_ping.is_none() || self.is_above_max_ping()
    }
}
