// The sizes of document 01, each once.
use seq::Seq;

// Link slots.
pub const SLOTS: usize = 8;

// The first number that is no slot.
pub const SLOT_END: u8 = SLOTS as u8;

// Packets in the table.
pub const PACKETS: usize = 64;

// Number n uses cell n mod this.
pub const PACKET_ROUND: u32 = PACKETS as u32;

// Cells of the receive table: so many times a power of two, up to the most. The packets stay as many whatever its size.
pub const LEAST_CELLS: u32 = 64;

pub const MOST_CELLS: u32 = 65536;

// Data bytes of a message, and so of a cell of a store.
pub const DATA_BYTES: usize = 1024;

// The sent store; the received one has as many bytes a cell.
pub const SENT_BYTES: usize = PACKETS * DATA_BYTES;

// The most that a received number may be past the next expected one.
pub const MAX_OFFSET: u32 = Seq::USABLE_INTERVAL as u32;
