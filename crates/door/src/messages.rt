// Messages as bytes: read for a host, and written for it.
ghost use Rattle.std.specs.Prelude.{◌≡◌, ◌∷◌, []};
ghost use Rattle.std.proofs.lemmas.List.Edits.{sets};
ghost use Rattle.msg.specs.Messages.{reason_byte, block_byte, values_of};
ghost use Rattle.msg.specs.Reading.{read_told};
ghost use Rattle.msg.specs.Writing.{written_told, write_of, buffer_of};
ghost use Rattle.door.specs.Messages.{reason_given, block_given, link_given, asked_link};

use crate::answers::{UNKNOWN, refused, tell_one, word};
use msg::{LinkMsg, RefusedReason, read, write};
use refusal::Refusal;
use seq::Seq;

fn reason_number(reason: RefusedReason) -> u64
    ensures { result ≡ reason_byte reason }
{
    match reason {
        RefusedReason::Closed => 1,
        RefusedReason::NotListening => 2,
        RefusedReason::ConnectionRefused => 3,
        RefusedReason::LinkRefused => 4,
    }
}

fn block_number(blocked: bool) -> u64
    ensures { result ≡ block_byte blocked }
{
    u64::from(blocked)
}

fn say_kind(kind: u8, values: &mut [u64; 3])
    ensures { values.new ≡ sets values.old 0 (kind ∷ []) }
{
    values[0] = u64::from(kind);
}

fn say_one(kind: u8, first: u64, values: &mut [u64; 3])
    ensures { values.new ≡ sets values.old 0 (kind ∷ first ∷ []) }
{
    say_kind(kind, values);
    values[1] = first;
}

fn say_two(kind: u8, first: u64, second: u64, values: &mut [u64; 3])
    ensures { values.new ≡ sets values.old 0 (kind ∷ first ∷ second ∷ []) }
{
    say_one(kind, first, values);
    values[2] = second;
}

// A message's kind, then what it carries.
fn say(msg: LinkMsg, values: &mut [u64; 3])
    ensures { values.new ≡ sets values.old 0 (values_of msg) }
{
    match msg {
        LinkMsg::Welcome => say_kind(LinkMsg::MSG_WELCOME, values),
        LinkMsg::Connect => say_kind(LinkMsg::MSG_CONNECT, values),
        LinkMsg::Accepted => say_kind(LinkMsg::MSG_ACCEPTED, values),
        LinkMsg::Refused { reason } => say_one(LinkMsg::MSG_REFUSED, reason_number(reason), values),
        LinkMsg::Ping => say_kind(LinkMsg::MSG_PING, values),
        LinkMsg::Pong => say_kind(LinkMsg::MSG_PONG, values),
        LinkMsg::Data { seq } => say_one(LinkMsg::MSG_DATA, word(seq), values),
        LinkMsg::Ack { received } => say_one(LinkMsg::MSG_ACK, word(received), values),
        LinkMsg::Consumed { seq, consumed } => {
            say_two(LinkMsg::MSG_CONSUMED, word(seq), consumed as u64, values)
        }
        LinkMsg::SendFinish { seq } => say_one(LinkMsg::MSG_SEND_FINISH, word(seq), values),
        LinkMsg::ReceiveClose { seq } => say_one(LinkMsg::MSG_RECEIVE_CLOSE, word(seq), values),
        LinkMsg::ReceiveFinish { seq } => say_one(LinkMsg::MSG_RECEIVE_FINISH, word(seq), values),
        LinkMsg::TestData { size } => say_one(LinkMsg::MSG_TEST_DATA, size as u64, values),
        LinkMsg::SetBlock { blocked } => {
            say_one(LinkMsg::MSG_SET_BLOCK, block_number(blocked), values)
        }
        LinkMsg::Goodbye => say_kind(LinkMsg::MSG_GOODBYE, values),
        LinkMsg::Terminate => say_kind(LinkMsg::MSG_TERMINATE, values),
    }
}

// Reads one message from all of the bytes; the values are its kind and what it carries.
#[unsafe(no_mangle)]
pub extern "C" fn fk_read(bytes: &[u8], values: &mut [u64; 3]) -> u64
    ensures value { result ≡ (read_told bytes.now).number }
    ensures values_after { values.new ≡ sets values.old 0 (read_told bytes.now).values }
{
    let reading = read(bytes);
    match reading {
        Err(e) => refused(e),
        Ok(msg) => {
            say(msg, values);
            0
        }
    }
}

fn refused_for(reason: RefusedReason) -> Option<LinkMsg>
    ensures { result ≡ Some (LinkMsg.Refused reason) }
{
    Some(LinkMsg::Refused { reason })
}

fn reason_given(number: u32) -> Option<LinkMsg>
    ensures { result ≡ reason_given number }
{
    match number {
        1 => refused_for(RefusedReason::Closed),
        2 => refused_for(RefusedReason::NotListening),
        3 => refused_for(RefusedReason::ConnectionRefused),
        4 => refused_for(RefusedReason::LinkRefused),
        _ => None,
    }
}

fn block_given(number: u32) -> Option<LinkMsg>
    ensures { result ≡ block_given number }
{
    match number {
        0 => Some(LinkMsg::SetBlock { blocked: false }),
        1 => Some(LinkMsg::SetBlock { blocked: true }),
        _ => None,
    }
}

// The message that a kind and two numbers name, as the values of fk_read do.
fn link_given(kind: u8, first: u32, second: u32) -> Option<LinkMsg>
    ensures { result ≡ link_given kind first second }
{
    let seq = Seq(first);
    let msg = match kind {
        LinkMsg::MSG_WELCOME => LinkMsg::Welcome,
        LinkMsg::MSG_CONNECT => LinkMsg::Connect,
        LinkMsg::MSG_ACCEPTED => LinkMsg::Accepted,
        LinkMsg::MSG_REFUSED => return reason_given(first),
        LinkMsg::MSG_PING => LinkMsg::Ping,
        LinkMsg::MSG_PONG => LinkMsg::Pong,
        LinkMsg::MSG_DATA => LinkMsg::Data { seq },
        LinkMsg::MSG_ACK => LinkMsg::Ack { received: seq },
        LinkMsg::MSG_CONSUMED => LinkMsg::Consumed {
            seq,
            consumed: second,
        },
        LinkMsg::MSG_SEND_FINISH => LinkMsg::SendFinish { seq },
        LinkMsg::MSG_RECEIVE_CLOSE => LinkMsg::ReceiveClose { seq },
        LinkMsg::MSG_RECEIVE_FINISH => LinkMsg::ReceiveFinish { seq },
        LinkMsg::MSG_TEST_DATA => LinkMsg::TestData {
            size: first as usize,
        },
        LinkMsg::MSG_SET_BLOCK => return block_given(first),
        LinkMsg::MSG_GOODBYE => LinkMsg::Goodbye,
        LinkMsg::MSG_TERMINATE => LinkMsg::Terminate,
        0 | 17..=255 => return None,
    };
    Some(msg)
}

// How many bytes were written.
fn tell_written(answer: Result<usize, Refusal>, values: &mut [u64; 3]) -> u64
    ensures value { result ≡ (written_told answer).number }
    ensures values_after { values.new ≡ sets values.old 0 (written_told answer).values }
{
    tell_one(answer, values, |n| n as u64)
}

// Writes a message to the start of the buffer; the value is how many bytes it has. Its kind and numbers name it as the values of fk_read do: 20 where they name none.
#[unsafe(no_mangle)]
pub extern "C" fn fk_write(
    buffer: &mut [u8],
    kind: u8,
    first: u32,
    second: u32,
    values: &mut [u64; 3],
) -> u64
    ensures value { result ≡ asked_link (link_given kind first second) (λ m. (written_told (write_of m buffer.old)).number) 20 }
    ensures buffer_after { buffer.new ≡ asked_link (link_given kind first second) (λ m. buffer_of m buffer.old) buffer.old }
    ensures values_after { values.new ≡ asked_link (link_given kind first second) (λ m. sets values.old 0 (written_told (write_of m buffer.old)).values) values.old }
{
    let asked = link_given(kind, first, second);
    match asked {
        None => UNKNOWN,
        Some(msg) => tell_written(write(msg, buffer), values),
    }
}
