// The journeys: how many cells the server's receive table has, how large its receive buffer is, and whether its viewer's disk stalls.
use engine::{DATA_BYTES, LEAST_CELLS};

const FEW: u32 = LEAST_CELLS;

const MANY: u32 = 4096;

pub const SMALL: usize = FEW as usize;

pub const LARGE: usize = MANY as usize;

pub const SMALL_BYTES: usize = SMALL * DATA_BYTES;

pub const LARGE_BYTES: usize = LARGE * DATA_BYTES;

// When the disk stalls and when it goes on. Meanwhile cable 2 dies and the numbers wrap.
pub const STALL: u64 = 400;

pub const STALL_END: u64 = 1200;

#[derive(Clone, Copy)]
pub struct Plan {
    pub cells: u32,
    pub buffer: u32,
    pub is_stalling: bool,
}

// The buffer is as large as the cells allow, so that they alone decide what there is room for. The scanner's end is this one in every
// journey: the server sends it no data.
pub const PLAIN: Plan = Plan {
    cells: FEW,
    buffer: SMALL_BYTES as u32,
    is_stalling: false,
};

// The journeys in turn. The map is shown of the first, whose viewer doesn't stall.
pub const JOURNEYS: [Plan; 3] = [
    PLAIN,
    Plan {
        is_stalling: true,
        ..PLAIN
    },
    Plan {
        cells: MANY,
        buffer: LARGE_BYTES as u32,
        is_stalling: true,
    },
];

impl Plan {
    // Whether the viewer takes nothing at this tick.
    pub fn is_stalled(self, tick: u64) -> bool {
        self.is_stalling && (STALL..STALL_END).contains(&tick)
    }
}
