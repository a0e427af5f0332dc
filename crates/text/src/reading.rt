// Decimal numbers, without leading zeros.
#![tactic(auto, unfolding(crate::specs::Decimal::digit_value, crate::specs::Decimal::unpadded, crate::specs::Decimal::decimal_of))]

ghost use Rattle.std.specs.Prelude.{◌≡◌, ◌<◌, MatchOption};
ghost use Rattle.text.specs.Decimal.{digit_value, read_from, decimal_of};

// What a digit is worth, 0 to 9.
fn digit(b: u8) -> Option<u64>
    ensures { MatchOption result (digit_value b ≡ 10) (λ d. (d ≡ digit_value b) × (d < 10)) }
{
    match b {
        b'0'..=b'9' => Some(u64::from(b - b'0')),
        _ => None,
    }
}

// The number that digits spell, up to the limit. A sum that doesn't fit 64 bits is past every limit.
fn spelt(word: &[u8], limit: u64) -> Option<u64>
    ensures { result ≡ read_from 0 word.now limit }
{
    let mut n: u64 = 0;
    for byte in word {
        let d = digit(*byte)?;
        let tens = n.checked_mul(10)?;
        let sum = tens.checked_add(d)?;
        if limit < sum {
            return None;
        }
        n = sum;
    }
    Some(n)
}

// Reads a number without leading zeros, at most the limit, from all of a word.
pub fn read_decimal(word: &[u8], limit: u64) -> Option<u64>
    ensures { result ≡ decimal_of word.now limit }
{
    match word {
        [] => None,
        [b'0', _, ..] => None,
        _ => spelt(word, limit),
    }
}
