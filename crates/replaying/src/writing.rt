// An answer's line of text.
ghost use Rattle.std.specs.Prelude.{◌≡◌};
ghost use Rattle.replaying.specs.Writing.{text_of};

use seq::Seq;
use text::hex_digit;

// The bytes of a line: two digits, a space, eight digits and a line feed.
pub const LINE_TEXT: usize = 12;

// Writes a refusal number, or 0, and the next expected number.
pub fn write_line(number: u8, next: Seq, out: &mut [u8; LINE_TEXT])
    ensures { out.new ≡ text_of number next.0 }
{
    let [a, b, c, d] = next.0.to_be_bytes();
    let line = [
        hex_digit(number / 16),
        hex_digit(number),
        b' ',
        hex_digit(a / 16),
        hex_digit(a),
        hex_digit(b / 16),
        hex_digit(b),
        hex_digit(c / 16),
        hex_digit(c),
        hex_digit(d / 16),
        hex_digit(d),
        b'\n',
    ];
    *out = line;
}
