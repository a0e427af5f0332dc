// The messages of a recording, line by line.
ghost use Rattle.std.specs.Prelude.{◌≡◌};
ghost use Rattle.recording.specs.Payloads.{is_payload};
ghost use Rattle.comparing.specs.Messages.{start_line, found_reliable, found_carried, found_reading, found_payload, line_found, waiting_after};

use msg::{LinkMsg, ReliableMsg};
use recording::{read_frame, read_payload};
use refusal::Refusal;
use seq::Seq;
use text::read_hex;

// A message with a number: where its frame's line begins, and which line that is, from 1.
#[derive(Clone, Copy)]
pub struct Message {
    pub number: Seq,
    pub at: usize,
    pub line: usize,
}

// What a line is found to be.
#[derive(Clone, Copy)]
pub enum Found {
    Bad,
    // a Data's frame: its payload is on the next line
    Awaits(Message),
    // a message with a number, now whole
    Holds(Message),
    // an ack, or a frame without a number
    Passes,
}

// The start number, eight digits.
pub(crate) fn read_start(line: &[u8]) -> Option<Seq>
    ensures { result ≡ start_line line.now }
{
    if line.len() != 8 {
        return None;
    }
    let mut bytes = [0u8; 4];
    read_hex(line, &mut bytes)?;
    Some(Seq(u32::from_be_bytes(bytes)))
}

fn find_reliable(msg: ReliableMsg, m: Message) -> Found
    ensures { result ≡ found_reliable msg m }
{
    match msg {
        ReliableMsg::Data => Found::Awaits(m),
        ReliableMsg::Consumed(_)
        | ReliableMsg::SendFinish
        | ReliableMsg::ReceiveClose
        | ReliableMsg::ReceiveFinish => Found::Holds(m),
    }
}

fn find_carried(carried: Option<(ReliableMsg, Seq)>, at: usize, line: usize) -> Found
    ensures { result ≡ found_carried carried at line }
{
    match carried {
        Some((msg, number)) => find_reliable(msg, Message { number, at, line }),
        None => Found::Passes,
    }
}

fn find_reading(reading: Result<LinkMsg, Refusal>, at: usize, line: usize) -> Found
    ensures { result ≡ found_reading reading at line }
{
    match reading {
        Err(_) => Found::Bad,
        Ok(msg) => find_carried(ReliableMsg::from_link_msg(msg), at, line),
    }
}

fn find_payload(text: &[u8], m: Message) -> Found
    ensures { result ≡ found_payload (is_payload text.now) m }
{
    let mut bytes = [0u8; 1024];
    let Some(_) = read_payload(text, &mut bytes) else {
        return Found::Bad;
    };
    Found::Holds(m)
}

// What the line that begins at a place is, given without its line feed.
pub(crate) fn read_line(waiting: Option<Message>, text: &[u8], at: usize, line: usize) -> Found
    ensures { result ≡ line_found waiting at line text.now }
{
    match waiting {
        None => find_reading(read_frame(text), at, line),
        Some(m) => find_payload(text, m),
    }
}

// What the line after it is.
pub(crate) fn wait_after(found: Found) -> Option<Message>
    ensures { result ≡ waiting_after found }
{
    match found {
        Found::Awaits(m) => Some(m),
        Found::Bad | Found::Holds(_) | Found::Passes => None,
    }
}
