// A payload's line: the data of the Data frame before it, possibly blank.
ghost use Rattle.std.specs.Prelude.{◌≡◌};
ghost use Rattle.recording.specs.Payloads.{payload_of, payload_in};

use text::read_hex;

// The most digits of a payload's line: two for each of 1,024 bytes.
pub const MAX_PAYLOAD: usize = 2048;

// Reads a payload's line to the start of a buffer, and says how many bytes it is. Of a bad line, some bytes may have been written.
pub fn read_payload(line: &[u8], into: &mut [u8; 1024]) -> Option<usize>
    ensures value { result ≡ payload_of line.now }
    ensures into_after { into.new ≡ payload_in line.now into.old }
{
    if MAX_PAYLOAD < line.len() {
        return None;
    }
    read_hex(line, into)
}
