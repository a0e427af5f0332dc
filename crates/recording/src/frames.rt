// A frame's line: lower-case hexadecimal, two digits a byte.
ghost use Rattle.std.specs.Prelude.{◌≡◌};
ghost use Rattle.recording.specs.Frames.{frame_of};

use msg::{LinkMsg, read};
use refusal::Refusal;
use text::read_hex;

// The most bytes of a frame, and the digits of its line: two a byte.
pub const MAX_FRAME: usize = 1040;

pub const MAX_LINE: usize = 2080;

// What a frame's line reads as: a line that is too long is bad, whatever it would read as.
pub fn read_frame(line: &[u8]) -> Result<LinkMsg, Refusal>
    ensures { result ≡ frame_of line.now }
{
    if MAX_LINE < line.len() {
        return Err(Refusal::Bytes);
    }
    let mut bytes = [0u8; MAX_FRAME];
    let Some(n) = read_hex(line, &mut bytes) else {
        return Err(Refusal::Bytes);
    };
    read(&bytes[..n])
}
