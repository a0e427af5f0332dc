// The host's door: every call of the engine in place over lent words (docs/WORDS.md), exported for a host in C or Rust. Each answers the refusal's number, or 0, and
// promises just what the engine's own call promises of the state that the words say; a refusal changes no word. None asks anything of its caller.
#![tactic(auto)]

mod answers;
mod given;
pub mod links;
pub mod messages;
pub mod reader;
pub mod receiving;
pub mod running;
pub mod sending;
pub mod slowness;
pub mod state;
