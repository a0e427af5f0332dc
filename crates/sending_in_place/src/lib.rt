// Sending, acks, flushing, unconfirming, resending and deadlines, in place on the words of a sound state.
#![tactic(auto)]

pub mod acking;
pub mod deadlines;
pub mod flushing;
mod gates;
mod queue;
pub mod resending;
mod rows;
pub mod sending;
mod table;
pub mod unconfirming;
