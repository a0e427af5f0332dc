// Sequence numbers (003, seq.rs): 32 bits that wrap at 2^32.
#![tactic(auto)]

ghost use Rattle.std.specs.Prelude.{◌≡◌, pos, ◌==◌};
ghost use Rattle.seq.specs.Numbers.{seq_of, plus, minus, signed, USABLE_INTERVAL};
ghost use Rattle.seq.specs.Distance.{distance_of, near, before, past};

// A sequence number.
#[derive(Clone, Copy, PartialEq, Eq)]
pub struct Seq(pub u32);

impl Seq {
    pub const ZERO: Self = Self(0);

    pub const MINUS_ONE: Self = Self(0xFFFF_FFFF);
    // The most that a received number may be past the next expected one.
    pub const USABLE_INTERVAL: i32 = 65_536;
    // From here on, either way, two numbers are far from each other.
    const FAR: u32 = 0x4000_0000;

    // The number n past this one.
    pub fn add(self, n: u32) -> Self
        ensures { result ≡ seq_of (plus self.0 n) }
    {
        Self(self.0.wrapping_add(n))
    }

    // The number n before this one.
    pub fn sub(self, n: u32) -> Self
        ensures { result ≡ seq_of (minus self.0 n) }
    {
        Self(self.0.wrapping_sub(n))
    }

    // How many numbers lead from other to this one, going round at 2^32 the shorter way. Only the one place below asks for it.
    fn difference(self, other: Self) -> i32
        ensures { result ≡ signed (minus self.0 other.0) }
    {
        self.0.wrapping_sub(other.0).cast_signed()
    }

    // The one place that says how far this number is from other: negative where it is before it, none where the two are too far from
    // each other to be put in an order.
    pub fn distance(self, other: Self) -> Option<i32>
        ensures { result ≡ distance_of self.0 other.0 }
    {
        let d = self.difference(other);
        if d.unsigned_abs() < Self::FAR {
            Some(d)
        } else {
            None
        }
    }

    // Whether the two are not far from each other.
    pub fn is_near(self, other: Self) -> bool
        ensures { result ≡ near self.0 other.0 }
    {
        self.distance(other).is_some()
    }

    // Not by comparing raw numbers: at the wrap the next tile would look old. Of two that are far apart neither is before the other.
    pub fn is_before(self, other: Self) -> bool
        ensures { result ≡ before self.0 other.0 }
    {
        match self.distance(other) {
            Some(d) => d < 0,
            None => false,
        }
    }

    // How many numbers past other this one is: 2^30, more than any size, where it is before it or far from it. Not None there: the
    // definition `past`, which contracts above cite, has that number.
    pub fn past(self, other: Self) -> u32
        ensures { result ≡ past self.0 other.0 }
    {
        match self.distance(other) {
            Some(d) => u32::try_from(d).unwrap_or(Self::FAR),
            None => Self::FAR,
        }
    }
}

// What the constants are worth, as promises: the code of the layers above has their values in place of their names.
fn zero() -> Seq
    ensures { result ≡ seq_of 0 }
{
    Seq::ZERO
}

fn minus_one() -> Seq
    ensures { result ≡ seq_of (minus 0 1) }
{
    Seq::MINUS_ONE
}

fn usable_interval() -> i32
    ensures { result ≡ pos USABLE_INTERVAL }
{
    Seq::USABLE_INTERVAL
}
