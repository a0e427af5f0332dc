// The round trip: how a ping, its pong and an acknowledged packet move it.
#![tactic(auto, unfolding(crate::specs::Roundtrip::trip_after, crate::specs::Roundtrip::pinged, crate::specs::Roundtrip::ponged_as, crate::specs::Roundtrip::trip_moved))]

ghost use Rattle.std.specs.Prelude.{◌≡◌, ◌+◌, ◌*◌, ◌/◌};
ghost use Rattle.link.specs.Roundtrip.{trip_after, pinged, ponged, trip_moved};

use crate::row::LinkRow;

// (r + 3e) / 4, rounded down, in steps that cannot pass 64 bits. Not one function with `smoother`: with the weights as parameters the
// steps fit only under a bound on them, which is no plainer.
fn nearer(r: u64, e: u64) -> u64
    ensures { result ≡ (r + 3 * e) / 4 }
{
    r / 4 + e / 4 * 3 + (r % 4 + e % 4 * 3) / 4
}

// (99r + e) / 100, rounded down, likewise.
fn smoother(r: u64, e: u64) -> u64
    ensures { result ≡ (99 * r + e) / 100 }
{
    r / 100 * 99 + e / 100 + (r % 100 * 99 + e % 100) / 100
}

// The round trip r after a packet was acknowledged in the time e.
pub fn trip_after(zero_estimate: bool, r: u64, e: u64) -> u64
    ensures { result ≡ trip_after zero_estimate r e }
{
    if zero_estimate {
        e
    } else if r < e {
        nearer(r, e)
    } else {
        smoother(r, e)
    }
}

impl LinkRow {
    // Notes that a ping was sent.
    pub fn ping(self, time: u64) -> LinkRow
        ensures { result ≡ pinged self time }
    {
        LinkRow {
            current_ping_sent: Some(time),
            ..self
        }
    }

    // The outstanding ping is answered.
    pub fn pong(self, time: u64) -> LinkRow
        ensures { result ≡ ponged self time }
    {
        match self.current_ping_sent {
            None => self,
            Some(since) => LinkRow {
                roundtrip: time.saturating_sub(since),
                zero_estimate: false,
                current_ping_sent: None,
                ..self
            },
        }
    }

    // A packet that was sent at `since` is acknowledged.
    pub fn trip(self, since: u64, time: u64) -> LinkRow
        ensures { result ≡ trip_moved self since time }
    {
        let elapsed = time.saturating_sub(since);
        LinkRow {
            roundtrip: trip_after(self.zero_estimate, self.roundtrip, elapsed),
            zero_estimate: false,
            ..self
        }
    }
}
