// The rows of a state's links, lent as a run: as many as a script asks for, up to one more than there are.
use engine::{SLOTS, SlowLinks};
use link::LinkRow;
use refusal::Refusal;

pub const MOST_ROWS: usize = SLOTS + 1;

// The slow links among the first n rows; behind the eight there is an empty one.
pub fn slow(links: &[LinkRow; SLOTS], n: usize) -> Result<SlowLinks, Refusal> {
    let mut rows = [LinkRow::empty(); MOST_ROWS];
    rows[..SLOTS].copy_from_slice(links);
    engine::slow(&rows[..n.min(MOST_ROWS)])
}
