// Hexadecimal digits, in lower case alone.
#![tactic(auto, unfolding(crate::specs::Hex::hex_value, crate::specs::Hex::hex_digit, crate::specs::Hex::hex_byte))]

ghost use Rattle.std.specs.Prelude.{◌≡◌, length};
ghost use Rattle.text.specs.Hex.{hex_value, hex_digit, hex_byte};
ghost use Rattle.text.specs.HexRun.{read_hex_of, read_hex_in};

// What a digit is worth, 0 to 15, and 16 for every byte that is no digit.
// 16 stands for none, and not None: the public contract's definition says so.
pub fn hex_value(b: u8) -> u8
    ensures { result ≡ hex_value b }
{
    match b {
        b'0'..=b'9' => b - b'0',
        b'a'..=b'f' => b - b'a' + 10,
        _ => 16,
    }
}

// The digit of a number's last four bits.
pub fn hex_digit(n: u8) -> u8
    ensures { result ≡ hex_digit n }
{
    let d = n % 16;
    if d < 10 { b'0' + d } else { b'a' - 10 + d }
}

// What two digits read as.
pub fn hex_byte(high: u8, low: u8) -> Option<u8>
    ensures { result ≡ hex_byte high low }
{
    let h = hex_value(high);
    let l = hex_value(low);
    if 16 <= h || 16 <= l {
        return None;
    }
    Some(h * 16 + l)
}

// Reads all of a run, two digits a byte. Bad where a byte is no digit, one digit is left over, or the buffer is too short; the
// bytes before a bad pair have then been written.
pub fn read_hex(run: &[u8], into: &mut [u8]) -> Option<usize>
    ensures value { result ≡ read_hex_of run.now (length into.old) }
    ensures into_after { into.new ≡ read_hex_in run.now into.old }
{
    let n = run.len() / 2;
    if into.len() < n {
        return None;
    }
    for i in 0..n {
        into[i] = hex_byte(run[i * 2], run[i * 2 + 1])?;
    }
    if run.len() % 2 != 0 {
        return None;
    }
    Some(n)
}
