// The lines of `dump`.
use crate::out::{Cell, Maybe, Out};
use crate::run::first;
use engine::{PACKETS, Receiving, Sending, SentReliable, SentReliableStatus, State};
use link::LinkRow;
use msg::ReliableMsg;
use seq::Seq;

// A sound table has at most PACKETS packets, so that a count modulo this is the count.
const COUNTS: usize = PACKETS + 1;

// Number n uses cell n mod this of the sent store.
pub const PACKET_ROUND: u32 = PACKETS as u32;

// Each behind a space.
fn numbers(out: &mut Out, numbers: &[Seq]) {
    for seq in numbers {
        let n = seq.0;
        out.say(format_args!(" {n}"));
    }
}

fn end(out: &mut Out, s: &State) {
    let tx = &s.tx;
    let rx = &s.rx;
    let next = tx.tx_seq.0;
    let unacked = tx.txed_unacked;
    let unconsumed = tx.txed_unconsumed;
    let unconsumable = tx.txed_unconsumable;
    let last = tx.txed_last_consumed.0;
    let is_finished = u8::from(tx.send_finish_sent);
    let is_closed = u8::from(tx.write_closed);
    out.say(format_args!(
        "end {next} {unacked} {unconsumed} {unconsumable} {last} {is_finished} {is_closed}"
    ));
    let expected = rx.rx_seq.0;
    let untaken = rx.rxed_reliable_size;
    let untold = rx.rxed_reliable_consumed;
    let buffer = rx.recv_buffer;
    let time = s.time;
    let is_open = u8::from(s.read_open);
    let cells = rx.cells;
    out.say(format_args!(" {expected} {untaken} {untold} {buffer} {time} {is_open} {cells}\n"));
}

fn link(out: &mut Out, slot: usize, row: &LinkRow) {
    let identity = row.link_id;
    let trip = row.roundtrip;
    let max = Maybe(row.max_ping);
    let is_blocked = u8::from(row.blocked);
    let is_unconfirmed = u8::from(row.unconfirmed);
    let is_zero = u8::from(row.zero_estimate);
    let mark = Maybe(row.limit_increased.map(|n| u64::from(n.0)));
    let ping = Maybe(row.current_ping_sent);
    let unacked = row.txed_unacked_data;
    out.say(format_args!(
        "link {slot} {identity} {trip} {max} {is_blocked} {is_unconfirmed} {is_zero} {mark} {ping} {unacked}"
    ));
    numbers(out, first(&row.tx_ack_queue, row.ack_count));
    out.say("\n");
}

fn message(out: &mut Out, msg: ReliableMsg, length: u32) {
    let kind = msg.kind();
    let count = msg.count();
    out.say(format_args!(" {kind} {count} {length}\n"));
}

fn packet(out: &mut Out, packet: &SentReliable) {
    let n = packet.seq.0;
    let length = packet.len;
    out.say(format_args!("packet {n}"));
    match packet.status {
        SentReliableStatus::Sent(flight) => {
            let slot = flight.slot;
            let identity = flight.link;
            let time = flight.sent;
            let flushed = Maybe(flight.flushed);
            let is_resent = u8::from(flight.resent);
            out.say(format_args!(" sent {slot} {identity} {time} {flushed} {is_resent}"));
            message(out, packet.msg, length);
        }
        SentReliableStatus::Received => out.say(format_args!(" received {length}\n")),
        SentReliableStatus::ResendQueued { sent_link } => {
            out.say(format_args!(" queued {sent_link}"));
            message(out, packet.msg, length);
        }
    }
}

// The packets of the table, with the numbers that they are to have.
fn packets<F: FnMut(&SentReliable)>(tx: &Sending, mut each: F)
    requires { F.IsAlwaysCallable each }
{
    let count = tx.txed_count % COUNTS;
    let first = tx.tx_seq.sub(count as u32);
    for k in 0..count as u32 {
        let n = first.add(k).0 % PACKET_ROUND;
        each(&tx.txed_packets[n as usize]);
    }
}

fn queue(out: &mut Out, tx: &Sending) {
    if tx.resend_count != 0 {
        out.say("queue");
        numbers(out, first(&tx.resend_queue, tx.resend_count));
        out.say("\n");
    }
}

// What stands in a cell in use: its number, its message and the length of that.
#[derive(Clone, Copy)]
struct InUse {
    seq: Seq,
    cell: u32,
    msg: ReliableMsg,
    length: u32,
    // whether it is to be handed out, with none missing before it
    is_ready: bool,
}

fn waiting(out: &mut Out, waiting: InUse) {
    let n = waiting.seq.0;
    if waiting.is_ready {
        let kind = waiting.msg.kind();
        let length = waiting.length;
        out.say(format_args!("ready {n} {kind} {length}\n"));
    } else {
        out.say(format_args!("held {n}"));
        message(out, waiting.msg, waiting.length);
    }
}

// How many cells are in use. A sound state has no more than it has cells.
fn in_use(rx: &Receiving) -> u32 {
    let used = rx.rx_end.past(rx.rx_oldest);
    if used <= rx.cells { used } else { 0 }
}

// The cells in use that hold something, from the oldest number on: first the ready messages, then the held ones.
fn cells<F: FnMut(InUse)>(rx: &Receiving, records: &[u64], mut each: F)
    requires { F.IsAlwaysCallable each }
{
    let expected = rx.rx_seq.past(rx.rx_oldest);
    for k in 0..in_use(rx) {
        let seq = rx.rx_oldest.add(k);
        let cell = seq.0.checked_rem(rx.cells).unwrap_or(0);
        let held = records
            .get(cell as usize)
            .copied()
            .and_then(engine::held_of);
        if let Some((msg, length)) = held {
            each(InUse {
                seq,
                cell,
                msg,
                length,
                is_ready: k < expected,
            });
        }
    }
}

// A line of a cell's bytes, where there are any.
fn cell_line(out: &mut Out, name: &str, store: &[u8], cell: u32, length: u32) {
    if length != 0 {
        let bytes = Cell::of(store, cell, length);
        out.say(format_args!("{name} {cell} {bytes}\n"));
    }
}

pub fn all(out: &mut Out, s: &State, sent: &[u8], received: &[u8], records: &[u64]) {
    out.say("0\n");
    end(out, s);
    for (slot, row) in s.links.iter().enumerate() {
        if row.live {
            link(out, slot, row);
        }
    }
    packets(&s.tx, |p| packet(out, p));
    queue(out, &s.tx);
    cells(&s.rx, records, |w| waiting(out, w));
    packets(&s.tx, |p| {
        if p.status != SentReliableStatus::Received {
            cell_line(out, "sent", sent, p.seq.0 % PACKET_ROUND, p.len);
        }
    });
    cells(&s.rx, records, |w| {
        cell_line(out, "kept", received, w.cell, w.length)
    });
    out.say(".\n");
}
