// The sizes of a comparison.

// The most numbers of a recording.
pub const NUMBERS: usize = 1024;

// The most differences: of two recordings without a number in common, a conflict and an absence for each.
pub const DIFFERENCES: usize = 4096;

// The most bytes that two lines spell, a frame's and its payload's.
pub const RUN: usize = 2080;
