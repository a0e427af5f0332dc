// Reading a message from bytes.
#![tactic(auto, unfolding(crate::specs::Reading::exactly, crate::specs::Reading::number_at, crate::specs::Reading::read_handshake, crate::specs::Reading::read_alone, crate::specs::Reading::read_refused, crate::specs::Reading::read_numbered, crate::specs::Reading::read_consumed, crate::specs::Reading::read_test_data, crate::specs::Reading::read_set_block, crate::specs::Reading::read_kind, crate::specs::Reading::read_of))]

ghost use Rattle.std.specs.Prelude.{◌≡◌, ◌+◌, ◌≤◌, length, eqb, Ok};
ghost use Rattle.seq.specs.Numbers.{seq_of};
ghost use Rattle.refusal.specs.Verdicts.{gate};
ghost use Rattle.msg.specs.Messages.{pattern};
ghost use Rattle.msg.specs.Reading.{number_at, opens_with, read_handshake, read_alone, read_refused, read_consumed, read_test_data, read_set_block, read_kind, read_of, reading_told, read_told};
ghost use Rattle.msg.specs.Reasons.{number_of};

use crate::link_msg::{LinkMsg, RefusedReason};
use refusal::{Refusal, refuse_unless};
use seq::Seq;

fn exactly(n: usize, body: &[u8]) -> Result<(), Refusal>
    ensures { result ≡ gate (eqb (length body.now) n) 20 (Ok tt) }
{
    refuse_unless(body.len() == n, Refusal::Bytes)
}

// The big-endian number at an index.
fn number_at(bytes: &[u8], at: usize) -> u32
    requires { at + 4 ≤ length bytes.now }
    ensures { result ≡ number_at bytes.now at }
{
    u32::from_be_bytes([bytes[at], bytes[at + 1], bytes[at + 2], bytes[at + 3]])
}

// The sequence number that is all of a body.
fn number(body: &[u8]) -> Result<Seq, Refusal>
    ensures { result ≡ number_of body.now }
{
    exactly(LinkMsg::LEN_NUMBER, body)?;
    Ok(Seq(number_at(body, 0)))
}

fn handshake(msg: LinkMsg, body: &[u8]) -> Result<LinkMsg, Refusal>
    ensures { result ≡ read_handshake msg body.now }
{
    let opens = body.starts_with(b"LIAG\0");
    let version = body.get(LinkMsg::LEN_MAGIC).copied().unwrap_or(0);
    refuse_unless(opens, Refusal::Bytes)?;
    refuse_unless(version == LinkMsg::PROTOCOL_VERSION, Refusal::Bytes)?;
    Ok(msg)
}

fn refused(body: &[u8]) -> Result<LinkMsg, Refusal>
    ensures { result ≡ read_refused body.now }
{
    exactly(LinkMsg::LEN_BYTE, body)?;
    let reason = RefusedReason::try_from(body[0])?;
    Ok(LinkMsg::Refused { reason })
}

fn consumed(body: &[u8]) -> Result<LinkMsg, Refusal>
    ensures { result ≡ read_consumed body.now }
{
    exactly(LinkMsg::LEN_CONSUMED, body)?;
    Ok(LinkMsg::Consumed {
        seq: Seq(number_at(body, 0)),
        consumed: number_at(body, LinkMsg::LEN_NUMBER),
    })
}

// Whether all bytes are test data: a counter that goes back to zero after 255, as in filling, is held against each. It asks for
// what the size limit lets through, so that nobody can call it before the size is judged.
fn is_pattern(bytes: &[u8]) -> bool
    requires { length bytes.now ≤ 1024 }
    ensures { result ≡ opens_with (pattern (length bytes.now)) bytes.now }
{
    let mut next: u8 = 0;
    for byte in bytes {
        if *byte != next {
            return false;
        }
        next = next.wrapping_add(1);
    }
    true
}

// The size is judged first, so that no byte past the limit is looked at.
fn test_data(body: &[u8]) -> Result<LinkMsg, Refusal>
    ensures { result ≡ read_test_data body.now }
{
    let size = body.len();
    if size > LinkMsg::MAX_TEST_DATA {
        return Err(Refusal::Bytes);
    }
    if is_pattern(body) {
        Ok(LinkMsg::TestData { size })
    } else {
        Err(Refusal::Bytes)
    }
}

fn set_block(body: &[u8]) -> Result<LinkMsg, Refusal>
    ensures { result ≡ read_set_block body.now }
{
    exactly(LinkMsg::LEN_BYTE, body)?;
    match body[0] {
        0 => Ok(LinkMsg::SetBlock { blocked: false }),
        1 => Ok(LinkMsg::SetBlock { blocked: true }),
        2..=255 => Err(Refusal::Bytes),
    }
}

fn alone(msg: LinkMsg, body: &[u8]) -> Result<LinkMsg, Refusal>
    ensures { result ≡ read_alone msg body.now }
{
    exactly(0, body)?;
    Ok(msg)
}

// Reads what follows a kind byte.
fn read_kind(kind: u8, body: &[u8]) -> Result<LinkMsg, Refusal>
    ensures { result ≡ read_kind kind body.now }
{
    match kind {
        LinkMsg::MSG_WELCOME => handshake(LinkMsg::Welcome, body),
        LinkMsg::MSG_CONNECT => handshake(LinkMsg::Connect, body),
        LinkMsg::MSG_ACCEPTED => alone(LinkMsg::Accepted, body),
        LinkMsg::MSG_REFUSED => refused(body),
        LinkMsg::MSG_PING => alone(LinkMsg::Ping, body),
        LinkMsg::MSG_PONG => alone(LinkMsg::Pong, body),
        LinkMsg::MSG_DATA => Ok(LinkMsg::Data { seq: number(body)? }),
        LinkMsg::MSG_ACK => Ok(LinkMsg::Ack {
            received: number(body)?,
        }),
        LinkMsg::MSG_CONSUMED => consumed(body),
        LinkMsg::MSG_SEND_FINISH => Ok(LinkMsg::SendFinish { seq: number(body)? }),
        LinkMsg::MSG_RECEIVE_CLOSE => Ok(LinkMsg::ReceiveClose { seq: number(body)? }),
        LinkMsg::MSG_RECEIVE_FINISH => Ok(LinkMsg::ReceiveFinish { seq: number(body)? }),
        LinkMsg::MSG_TEST_DATA => test_data(body),
        LinkMsg::MSG_SET_BLOCK => set_block(body),
        LinkMsg::MSG_GOODBYE => alone(LinkMsg::Goodbye, body),
        LinkMsg::MSG_TERMINATE => alone(LinkMsg::Terminate, body),
        0 | 17..=255 => Err(Refusal::Bytes),
    }
}

// Reads one message from all of bytes.
pub fn read(bytes: &[u8]) -> Result<LinkMsg, Refusal>
    ensures value { result ≡ read_of bytes.now }
    ensures result_value { reading_told result ≡ read_told bytes.now }
{
    match bytes {
        [kind, body @ ..] => read_kind(*kind, body),
        [] => Err(Refusal::Bytes),
    }
}
