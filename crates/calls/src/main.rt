// Answers a script of calls on one end, a line for each, as docs/CALLS.md has them: the script is standard input, of any length.
#![tactic(auto)]

mod call;
mod dump;
mod input;
mod message;
mod out;
mod rooms;
mod rows;
mod run;
mod stack;
mod words;

use crate::call::{MOST_RECORDS_LENT, MOST_ROOM, MOST_SENT_LENT};
use crate::input::Input;
use crate::out::Out;
use crate::run::End;

// The buffers are made here, once, and lent to everything below; but for the received store, which `rooms` makes.
fn main(rt: HostRuntime) {
    let mut stdin = rt.stdin();
    let mut piece = [0u8; 65536];
    let mut line = [0u8; 4160];
    let mut payload = [0u8; MOST_ROOM];
    let mut sent = [0u8; MOST_SENT_LENT];
    let mut records = [0u64; MOST_RECORDS_LENT];
    let mut buffer = [0u8; 65536];
    let out = Out::new(&mut buffer);
    let mut end = End::new(&mut payload, &mut sent, &mut records, out);
    let mut input = Input::new(&mut stdin, &mut piece, &mut line);
    rooms::script(&rt, &mut input, &mut end);
}
