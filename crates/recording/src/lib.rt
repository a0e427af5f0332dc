// Recordings: frames in lower-case hexadecimal, one a line, a Data's payload on the line after it. The replay and the comparison read
// their lines by this.
#![tactic(auto)]

pub mod frames;
pub mod lines;
pub mod payloads;

pub use frames::{MAX_FRAME, MAX_LINE, read_frame};
pub use lines::line_end;
pub use payloads::{MAX_PAYLOAD, read_payload};
