// Where two recordings part: the messages of each by their numbers, and a list of the differences.
#![tactic(auto)]

pub mod comparison;
pub mod listing;
pub mod messages;
pub mod runs;
pub mod scanning;
pub mod sizes;
pub mod table;
pub mod writing;

pub use comparison::{Compared, Side, compare};
pub use listing::{Difference, difference_of, number_in};
pub use sizes::DIFFERENCES;
pub use writing::{LINE, SUMMARY, write_difference, write_refused, write_summary};
