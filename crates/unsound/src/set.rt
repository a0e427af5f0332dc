// What several kinds of states set.
use crate::good::{FIRST, Records};
use engine::{InFlight, PACKETS, SentReliable, SentReliableStatus, State};
use msg::ReliableMsg;
use seq::Seq;
use std::ops::Range;

// What a change of the first packet makes of the sums: all outstanding, all settled, and what slot 0 has.
pub fn sums(s: &mut State, unacked: u32, unconsumable: u32, on: u32) {
    s.tx.txed_unacked = unacked;
    s.tx.txed_unconsumable = unconsumable;
    s.links[0].txed_unacked_data = on;
}

// Another packet in the first one's cell.
pub fn first(s: &mut State, n: u32, msg: ReliableMsg, len: u32, status: SentReliableStatus) {
    s.tx.txed_packets[FIRST as usize % PACKETS] = SentReliable {
        seq: Seq(n),
        msg,
        len,
        status,
    };
}

// The first packet's flight, or another.
pub const FLIGHT: InFlight = InFlight {
    sent: 1,
    flushed: None,
    slot: 0,
    link: 11,
    resent: false,
};

pub fn flight(s: &mut State, flight: InFlight) {
    let status = SentReliableStatus::Sent(flight);
    first(s, FIRST, ReliableMsg::Data, 3, status);
}

// The oldest number, the next expected one and the end.
pub fn ends(s: &mut State, oldest: u32, expected: u32, end: u32) {
    s.rx.rx_oldest = Seq(oldest);
    s.rx.rx_seq = Seq(expected);
    s.rx.rx_end = Seq(end);
}

// The cell count and the receive buffer.
pub fn cells(s: &mut State, n: u32, buffer: u32) {
    s.rx.cells = n;
    s.rx.recv_buffer = buffer;
}

// Two words by turns, in these cells.
pub fn turns(records: &mut Records, cells: Range<usize>, even: u64, odd: u64) {
    for (at, word) in records.iter_mut().enumerate() {
        if cells.start <= at && at < cells.end {
            *word = if at % 2 == 0 { even } else { odd };
        }
    }
}
