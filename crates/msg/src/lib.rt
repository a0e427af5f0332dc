// Messages (002, msg.rs): what travels over a link, read from bytes and written to them.
#![tactic(auto)]

pub mod link_msg;
pub mod reading;
pub mod reliable;
pub mod writing;

pub use link_msg::{LinkMsg, RefusedReason};
pub use reading::read;
pub use reliable::ReliableMsg;
pub use writing::write;
