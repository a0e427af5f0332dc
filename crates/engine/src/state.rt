// The fields. Times are nanoseconds; a total is a number of data bytes.
use crate::sizes::{PACKETS, SLOTS};
use link::LinkRow;
use msg::ReliableMsg;
use seq::Seq;

// A packet that was sent over a link, and is not acknowledged yet.
#[derive(Clone, Copy, PartialEq, Eq)]
pub struct InFlight {
    pub sent: u64,
    // when it was flushed
    pub flushed: Option<u64>,
    pub slot: u8,
    pub link: u64,
    // whether it was sent before
    pub resent: bool,
}

#[derive(Clone, Copy, PartialEq, Eq)]
pub enum SentReliableStatus {
    Sent(InFlight),
    // Received by the other end.
    Received,
    // Queued for resending; it was last sent over the link with this identity.
    ResendQueued { sent_link: u64 },
}

// A packet of the table. The bytes of a Data are in the sent store, in the cell of its number.
#[derive(Clone, Copy, PartialEq, Eq)]
pub struct SentReliable {
    pub seq: Seq,
    pub msg: ReliableMsg,
    pub len: u32,
    pub status: SentReliableStatus,
}

// What a receive cell holds: a message and its length. Its record, a word of the lent record space, says so (`records`).
pub type Held = Option<(ReliableMsg, u32)>;

// The sending half. The packets and the queue are arrays with a count beside: memory is fixed, and the words of the calls in place lie so.
#[derive(Clone, Copy, PartialEq, Eq)]
pub struct Sending {
    // the number that the next message gets
    pub tx_seq: Seq,
    // the packet table: number n is in cell n mod PACKETS, and the last txed_count numbers before tx_seq are in it
    pub txed_packets: [SentReliable; PACKETS],
    pub txed_count: usize,
    // the numbers to resend, oldest first: the first resend_count of these
    pub resend_queue: [Seq; PACKETS],
    pub resend_count: usize,
    // data that was given and is not acknowledged
    pub txed_unacked: u32,
    // data that was given and that the other end has not told to be consumed
    pub txed_unconsumed: u32,
    // data that is acknowledged but waits behind a packet that isn't
    pub txed_unconsumable: u32,
    pub txed_last_consumed: Seq,
    // own SendFinish was given, or a ReceiveFinish received
    pub send_finish_sent: bool,
    // a ReceiveClose was received
    pub write_closed: bool,
}

// The receiving half.
#[derive(Clone, Copy, PartialEq, Eq)]
pub struct Receiving {
    // the next expected number
    pub rx_seq: Seq,
    // the oldest ready message's number, or the next expected one where none is ready
    pub rx_oldest: Seq,
    // untaken data
    pub rxed_reliable_size: u32,
    // data taken, and not told to the other end as consumed
    pub rxed_reliable_consumed: u32,
    pub recv_buffer: u32,
    // the cell count: number n is in cell n mod this, of the lent records and of the received store
    pub cells: u32,
    // the number after the newest that was received: from the oldest up to it the cells are in use
    pub rx_end: Seq,
}

#[derive(Clone, Copy, PartialEq, Eq)]
pub struct State {
    pub links: [LinkRow; SLOTS],
    pub tx: Sending,
    pub rx: Receiving,
    // the last accepted time
    pub time: u64,
    // the reader has not closed
    pub read_open: bool,
}
