// How far the stack may grow.
use std::fs;
use std::rt::Files;

// Where Linux tells a process its limits, each on a line of its own.
const LIMITS: &str = "/proc/self/limits";

// What the line of the stack's limit starts with. Then come the limit that holds, in bytes, and the most that it may be raised to.
const STACK: &str = "Max stack size";

// A limit in bytes, the largest number where there is none.
fn number_of(word: &str) -> Option<u64> {
    if word == "unlimited" {
        return Some(u64::MAX);
    }
    word.parse::<u64>().ok()
}

// The stack's limit that holds, among the limits.
fn limit_in(limits: &str) -> Option<u64> {
    let rest = limits.lines().find_map(|line| line.strip_prefix(STACK))?;
    number_of(rest.split_whitespace().next()?)
}

// Whether so many bytes are within the limit. Where the system does not tell it, none are.
pub fn may_take(rt: &(impl Files + Alloc), bytes: u64) -> bool {
    match fs::read_to_string(rt, LIMITS) {
        Ok(limits) => limit_in(limits.as_str()).is_some_and(|limit| bytes <= limit),
        Err(_) => false,
    }
}
