// Writing a message to bytes.
#![tactic(auto, unfolding(crate::specs::Messages::be32, crate::specs::Messages::pattern, crate::specs::Writing::write_verdict, crate::specs::Writing::write_of, crate::specs::Writing::buffer_of))]

ghost use Rattle.std.specs.Prelude.{◌≡◌, ◌∷◌, [], ◌++◌, length};
ghost use Rattle.msg.specs.Messages.{be32, pattern, bytes_of};
ghost use Rattle.msg.specs.Writing.{put_of, put_in, written_told, write_verdict, write_of, buffer_of};
ghost use Rattle.refusal.specs.Answers.{told_by};

use crate::link_msg::LinkMsg;
use refusal::Refusal;
use seq::Seq;

// Puts bytes to the start of the buffer, and answers how many they are.
fn put(bytes: &[u8], buffer: &mut [u8]) -> Result<usize, Refusal>
    ensures value { result ≡ put_of bytes.now buffer.old }
    ensures buffer_after { buffer.new ≡ put_in bytes.now buffer.old }
{
    let count = bytes.len();
    if buffer.len() < count {
        return Err(Refusal::Length);
    }
    buffer[..count].copy_from_slice(bytes);
    Ok(count)
}

fn numbered(kind: u8, seq: Seq, buffer: &mut [u8]) -> Result<usize, Refusal>
    ensures value { result ≡ put_of (kind ∷ be32 seq.0) buffer.old }
    ensures buffer_after { buffer.new ≡ put_in (kind ∷ be32 seq.0) buffer.old }
{
    let [a, b, c, d] = seq.0.to_be_bytes();
    put(&[kind, a, b, c, d], buffer)
}

fn counted(seq: Seq, count: u32, buffer: &mut [u8]) -> Result<usize, Refusal>
    ensures value { result ≡ put_of (9 ∷ (be32 seq.0 ++ be32 count)) buffer.old }
    ensures buffer_after { buffer.new ≡ put_in (9 ∷ (be32 seq.0 ++ be32 count)) buffer.old }
{
    let [a, b, c, d] = seq.0.to_be_bytes();
    let [e, f, g, h] = count.to_be_bytes();
    put(&[LinkMsg::MSG_CONSUMED, a, b, c, d, e, f, g, h], buffer)
}

// Fills a part with test data: a counter that goes back to zero after 255 needs no remainder for each byte.
fn fill(part: &mut [u8])
    ensures { part.new ≡ pattern (length part.old) }
{
    let mut next: u8 = 0;
    for byte in part.iter_mut() {
        *byte = next;
        next = next.wrapping_add(1);
    }
}

fn test_data(size: usize, buffer: &mut [u8]) -> Result<usize, Refusal>
    ensures value { result ≡ write_of (LinkMsg.TestData size) buffer.old }
    ensures buffer_after { buffer.new ≡ buffer_of (LinkMsg.TestData size) buffer.old }
{
    if size > LinkMsg::MAX_TEST_DATA {
        return Err(Refusal::Bytes);
    }
    if buffer.len() <= size {
        return Err(Refusal::Length);
    }
    buffer[0] = LinkMsg::MSG_TEST_DATA;
    fill(&mut buffer[1..=size]);
    Ok(1 + size)
}

// Writes a message to the start of the buffer, and answers how many bytes it has.
pub fn write(msg: LinkMsg, buffer: &mut [u8]) -> Result<usize, Refusal>
    ensures value { result ≡ write_of msg buffer.old }
    ensures result_value { written_told result ≡ told_by (write_verdict msg (length buffer.old)) (length (bytes_of msg) ∷ []) }
    ensures buffer_after { buffer.new ≡ buffer_of msg buffer.old }
{
    match msg {
        LinkMsg::Welcome | LinkMsg::Connect => Err(Refusal::Bytes),
        LinkMsg::Accepted => put(&[LinkMsg::MSG_ACCEPTED], buffer),
        LinkMsg::Refused { reason } => put(&[LinkMsg::MSG_REFUSED, reason as u8], buffer),
        LinkMsg::Ping => put(&[LinkMsg::MSG_PING], buffer),
        LinkMsg::Pong => put(&[LinkMsg::MSG_PONG], buffer),
        LinkMsg::Data { seq } => numbered(LinkMsg::MSG_DATA, seq, buffer),
        LinkMsg::Ack { received } => numbered(LinkMsg::MSG_ACK, received, buffer),
        LinkMsg::Consumed { seq, consumed } => counted(seq, consumed, buffer),
        LinkMsg::SendFinish { seq } => numbered(LinkMsg::MSG_SEND_FINISH, seq, buffer),
        LinkMsg::ReceiveClose { seq } => numbered(LinkMsg::MSG_RECEIVE_CLOSE, seq, buffer),
        LinkMsg::ReceiveFinish { seq } => numbered(LinkMsg::MSG_RECEIVE_FINISH, seq, buffer),
        LinkMsg::TestData { size } => test_data(size, buffer),
        LinkMsg::SetBlock { blocked } => put(&[LinkMsg::MSG_SET_BLOCK, u8::from(blocked)], buffer),
        LinkMsg::Goodbye => put(&[LinkMsg::MSG_GOODBYE], buffer),
        LinkMsg::Terminate => put(&[LinkMsg::MSG_TERMINATE], buffer),
    }
}
