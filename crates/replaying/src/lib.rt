// The replay: lines of hexadecimal frames, received by one engine, and an answer for each frame.
#![tactic(auto)]

pub mod feeding;
pub mod lines;
pub mod session;
pub mod sizes;
pub mod taking;
pub mod writing;

pub use feeding::{Closed, Fed, close, feed};
pub use session::{Answered, Replay, Session, begin};
pub use sizes::{CELLS, RECEIVED_BYTES};
pub use writing::{LINE_TEXT, write_line};
