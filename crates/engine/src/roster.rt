// Who lives in which slot: what the tests of identities look at, so that they need not carry whole rows.
ghost use Rattle.std.specs.Prelude.{◌≡◌};
ghost use Rattle.engine.specs.Roster.{roster_of, lives_in, lives_before};

use crate::sizes::SLOTS;
use link::LinkRow;

// Two arrays, and no array of options: `roster_of`, `lives_in` and `distinct_below` are said of them, and judging in place is held to these.
#[derive(Clone, Copy)]
pub struct Roster {
    pub live: [bool; SLOTS],
    pub ids: [u64; SLOTS],
}

impl Roster {
    pub fn of(links: [LinkRow; SLOTS]) -> Roster
        ensures { result ≡ roster_of links }
    {
        Roster {
            live: std::array::from_fn(|slot| links[slot].live),
            ids: std::array::from_fn(|slot| links[slot].link_id),
        }
    }

    // Whether a slot holds a live link with the identity.
    #[tactic(auto, unfolding(crate::specs::Roster::lives_in))]
    pub fn lives_in(self, slot: usize, id: u64) -> bool
        ensures { result ≡ lives_in self slot id }
    {
        slot < SLOTS && self.live[slot] && self.ids[slot] == id
    }

    // Whether one of the first n slots holds a live link with the identity.
    pub fn lives_before(self, n: usize, id: u64) -> bool
        ensures { result ≡ lives_before self n id }
    {
        (0..n).any(|slot| self.lives_in(slot, id))
    }
}
