// A run of calls under one judgement: a host hands over a list of calls as words, soundness is judged once, and each call is done on a state that is known to
// be sound. What is promised is the plain calls one after another.
#![tactic(auto)]

mod answers;
mod calls;
mod given;
mod links;
mod reader;
mod receiving;
pub mod running;
mod sending;
