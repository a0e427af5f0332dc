// How long an acknowledgement may be in coming over a link (request [1] of document 02). Times are nanoseconds.
#![tactic(auto, unfolding(crate::specs::Timeout::factor_ok, crate::specs::Timeout::timeout_within, crate::specs::Timeout::duration_of))]

ghost use Rattle.std.specs.Prelude.{◌≡◌, cond};
ghost use Rattle.link.specs.Timeout.{factor_ok, timeout_within, duration_of};

use crate::sizes::{MAX_FACTOR, MAX_TIME};

// A host's settings, by their names in the original without `ack_timeout`.
#[derive(Clone, Copy, PartialEq, Eq)]
pub struct AckTimeout {
    // of the round trip
    pub roundtrip_factor: u64,
    // for a packet that was resent
    pub resent_factor: u64,
    // for a link whose round trip the host calls unreliable
    pub unreliable_factor: u64,
    pub min: u64,
    pub max: u64,
}

fn factor_ok(factor: u64) -> bool
    ensures { result ≡ factor_ok factor }
{
    1 <= factor && factor <= MAX_FACTOR
}

// A factor, or 1 where it does not count.
fn factor_if(counts: bool, factor: u64) -> u64
    ensures { result ≡ cond counts factor 1 }
{
    if counts { factor } else { 1 }
}

impl AckTimeout {
    // Whether factors and bounds are within their sizes.
    pub fn is_within(self) -> bool
        ensures { result ≡ timeout_within self }
    {
        factor_ok(self.roundtrip_factor)
            && factor_ok(self.resent_factor)
            && factor_ok(self.unreliable_factor)
            && self.min <= self.max
            && self.min <= MAX_TIME
            && self.max <= MAX_TIME
    }

    // How long after a packet was definitely sent its acknowledgement may be in coming: within the maximum at each factor. A product too
    // large for 64 bits is above any maximum.
    pub fn duration(self, roundtrip: u64, resent: bool, unreliable: bool) -> u64
        ensures { result ≡ duration_of self roundtrip resent unreliable }
    {
        let most = self.max;
        let product = roundtrip
            .saturating_mul(self.roundtrip_factor)
            .min(most)
            .saturating_mul(factor_if(resent, self.resent_factor))
            .min(most)
            .saturating_mul(factor_if(unreliable, self.unreliable_factor))
            .min(most);
        product.max(self.min)
    }
}
