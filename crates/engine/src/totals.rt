// Totals that grow and shrink.
ghost use Rattle.std.specs.Prelude.{◌≡◌, ◌-◌};
ghost use Rattle.engine.specs.Totals.{fits};

// The largest total.
pub const MAX_TOTAL: u32 = u32::MAX;

// Whether a sum stays within a bound, told without making the sum.
pub fn sum_fits(sum: u32, more: usize, bound: u32) -> bool
    ensures { result ≡ fits sum more bound }
{
    sum <= bound && more <= (bound - sum) as usize
}

// a less b, or 0: in a sound state b is never more.
pub fn less(a: u32, b: u32) -> u32
    ensures { result ≡ a - b }
{
    a.saturating_sub(b)
}
