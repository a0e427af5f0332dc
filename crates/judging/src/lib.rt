// Whether the words of a state are sound, judged where they stand: what `engine::is_sound` says of the state that they say, in one pass over the packets in
// use, with neither the state nor a row's acks read.
#![tactic(auto)]

mod entry;
mod packet;
mod pass;
mod roster;
pub mod sound;

pub use entry::{as_mut_sound, as_mut_sound_with, as_sound, as_sound_with};
pub use sound::{is_sound, is_sound_with};
