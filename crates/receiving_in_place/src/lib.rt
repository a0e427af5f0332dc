// Receiving, showing and taking messages in place, on the words of a sound state and the lent records: what `engine` does with a state by value.
#![tactic(auto)]

pub mod effects;
pub mod handing_out;
pub mod receiving;
