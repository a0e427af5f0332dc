// The fresh state.
ghost use Rattle.std.specs.Prelude.{◌≡◌, length, replicate};
ghost use Rattle.engine.specs.Fields.{with_tx, with_packets};
ghost use Rattle.engine.specs.Packets.{no_packet};
ghost use Rattle.engine.specs.Sizes.{PACKETS};
ghost use Rattle.engine.specs.Starting.{fresh_tx, fresh_rx, fresh_state};
ghost use Rattle.words.specs.Encoded.{numbers_of};
ghost use Rattle.words.specs.Layout.{WORDS};
ghost use Rattle.words.specs.Meaning.{state_of};

use engine::sizes::PACKETS;
use engine::starting::empty_records;
use engine::{InFlight, Receiving, SentReliable, SentReliableStatus};
use msg::ReliableMsg;
use seq::Seq;
use words::clock::put_read_open;
use words::layout::WORDS;
use words::packet::put_packet;
use words::receiving::put_rx;
use words::sending::{SendingNumbers, put_tx};

// What an empty cell of the packet table holds.
fn no_packet() -> SentReliable
    ensures { result ≡ no_packet }
{
    let status = SentReliableStatus::Sent(InFlight::new(0, 0, 0, false));
    SentReliable::new(Seq::ZERO, ReliableMsg::Data, 0, status)
}

// Empties every cell of the packet table.
fn put_packets(words: &mut [u64; WORDS])
    ensures { state_of words.new ≡ with_tx (state_of words.old) (with_packets (state_of words.old).tx (replicate PACKETS no_packet)) }
{
    let none = no_packet();
    for at in 0..PACKETS {
        put_packet(words, at, none);
    }
}

fn fresh_numbers(start: Seq) -> SendingNumbers
    ensures { result ≡ numbers_of (fresh_tx start.0) }
{
    SendingNumbers {
        tx_seq: start,
        txed_count: 0,
        resend_count: 0,
        txed_unacked: 0,
        txed_unconsumed: 0,
        txed_unconsumable: 0,
        txed_last_consumed: start.sub(1),
        send_finish_sent: false,
        write_closed: false,
    }
}

fn fresh_rx(start: Seq, recv_buffer: u32, cells: u32) -> Receiving
    ensures { result ≡ fresh_rx start.0 recv_buffer cells }
{
    Receiving {
        rx_seq: start,
        rx_oldest: start,
        rxed_reliable_size: 0,
        rxed_reliable_consumed: 0,
        recv_buffer,
        cells,
        rx_end: start,
    }
}

// The words of a fresh state; words that are all 0 say its rows, its queue and its time.
fn put_all(words: &mut [u64; WORDS], start: Seq, recv_buffer: u32, cells: u32)
    ensures { state_of words.new ≡ fresh_state start.0 recv_buffer cells }
{
    empty_records(words);
    put_packets(words);
    put_tx(words, fresh_numbers(start));
    put_rx(words, fresh_rx(start, recv_buffer, cells));
    put_read_open(words, true);
}

// .. to a run of words that is as long.
pub fn put_fresh(words: &mut [u64], start: Seq, recv_buffer: u32, cells: u32)
    requires { length words.old ≡ WORDS }
    ensures { state_of words.new ≡ fresh_state start.0 recv_buffer cells }
{
    if let Some(words) = words.as_mut_array::<WORDS>() {
        put_all(words, start, recv_buffer, cells);
    }
}
