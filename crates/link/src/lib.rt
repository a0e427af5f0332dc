// One link's row (001, agg/link_int.rs): what the engine keeps of a link, and what each event does to it.
#![tactic(auto)]

pub mod acks;
pub mod limit;
pub mod roundtrip;
pub mod row;
pub mod sizes;
pub mod slow;
pub mod timeout;

pub use row::LinkRow;
pub use timeout::AckTimeout;
