// The places of docs/WORDS.md.

// The words of a state.
pub const WORDS: usize = 1248;

// The sending half's numbers, and where they end.
pub const TX: usize = 0;

pub const TX_END: usize = TX + 9;

// The receiving half's.
pub const RX: usize = 16;

pub const RX_END: usize = RX + 7;

pub const TIME: usize = 24;

pub const READER: usize = 25;

// The rows, their acks, the packets: where the first starts, and how far it is to the next.
pub const ROWS: usize = 32;

pub const ROW: usize = 16;
// of which so many are a row's
pub const ROW_WORDS: usize = 14;
// .. and the last of these counts its acks
pub const ACK_COUNT: usize = 13;

pub const ACKS_START: usize = 160;

pub const ACKS: usize = 64;

pub const PACKETS_START: usize = 672;

pub const PACKET: usize = 8;

// The resend queue.
pub const QUEUE: usize = 1184;
