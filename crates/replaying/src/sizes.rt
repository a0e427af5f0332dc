// The replay's sizes: its receive table is the least that there is.
use engine::{DATA_BYTES, LEAST_CELLS};

// Receive cells, and so words of the record space that a host lends.
pub const CELLS: usize = LEAST_CELLS as usize;

// Bytes of the received store that a host lends; the receive buffer is as large.
pub const RECEIVED_BYTES: usize = CELLS * DATA_BYTES;
