// The calls on links, acks, the reader and the fresh state, in place on the words of a sound state: each answers what the engine's call of that
// name answers, and leaves the words of the state that it leaves.
#![tactic(auto)]

pub mod acks;
pub mod adding;
pub mod fresh;
pub mod links;
pub mod reader;
pub mod slowness;
