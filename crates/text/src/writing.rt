// Writing into a lent buffer at a place. Each answers the place past what it wrote, and where there is no room for all of it,
// writes nothing and answers the place itself: not None, since that is what the public definition `put_end` says.
ghost use Rattle.std.specs.Prelude.{◌≡◌, length};
ghost use Rattle.text.specs.Put.{put_end, put_in, decimal_text};
ghost use Rattle.text.specs.Hex.{hex_pair};

use crate::hex::hex_digit;

pub fn put(run: &[u8], out: &mut [u8], at: usize) -> usize
    ensures value { result ≡ put_end run.now out.old at }
    ensures out_after { out.new ≡ put_in run.now out.old at }
{
    if out.len() < at || out.len() - at < run.len() {
        return at;
    }
    let end = at + run.len();
    out[at..end].copy_from_slice(run);
    end
}

// A number in decimal. The digits are a buffer with a count beside it, as `io::decimal` of the kit fills one.
pub fn put_decimal(n: u64, out: &mut [u8], at: usize) -> usize
    ensures value { result ≡ put_end (decimal_text n) out.old at }
    ensures out_after { out.new ≡ put_in (decimal_text n) out.old at }
{
    let mut digits = [0u8; 20];
    let count = io::decimal(n, &mut digits);
    put(&digits[..count], out, at)
}

// A byte in two digits.
pub fn put_hex(b: u8, out: &mut [u8], at: usize) -> usize
    ensures value { result ≡ put_end (hex_pair b) out.old at }
    ensures out_after { out.new ≡ put_in (hex_pair b) out.old at }
{
    let pair = [hex_digit(b / 16), hex_digit(b)];
    put(&pair, out, at)
}
