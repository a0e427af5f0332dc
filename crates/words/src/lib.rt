// The engine's state in lent words: what stands where (docs/WORDS.md), and how a row, a packet and the two halves' numbers are read and written in
// place. A function here promises what it leaves of the state that the words say; the crate `door` is made of them.
#![tactic(auto)]

pub mod bits;
pub mod clock;
pub mod copying;
pub mod gates;
pub mod layout;
pub mod packet;
pub mod queues;
pub mod receiving;
pub mod row;
pub mod sending;
