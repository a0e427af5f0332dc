// The messages between two ends, their kind bytes and their lengths.
ghost use Rattle.msg.specs.Reasons.{Decodes};

use refusal::Refusal;
use seq::Seq;

// Why a link was refused, under the byte that says so.
#[derive(Clone, Copy, PartialEq, Eq)]
pub enum RefusedReason {
    Closed = 1,
    NotListening = 2,
    ConnectionRefused = 3,
    LinkRefused = 4,
}

impl TryFrom<u8> for RefusedReason {
    type Error = Refusal;

    ghost try_from_gives = { Decodes };

    fn try_from(byte: u8) -> Result<Self, Refusal> {
        match byte {
            1 => Ok(RefusedReason::Closed),
            2 => Ok(RefusedReason::NotListening),
            3 => Ok(RefusedReason::ConnectionRefused),
            4 => Ok(RefusedReason::LinkRefused),
            _ => Err(Refusal::Bytes),
        }
    }
}

// A message over a link. Of the handshake pair, Welcome and Connect, only the head is ours: the rest is the host's.
#[derive(Clone, Copy, PartialEq, Eq)]
pub enum LinkMsg {
    Welcome,
    Connect,
    Accepted,
    Refused { reason: RefusedReason },
    Ping,
    Pong,
    // Its payload travels as a separate message after it.
    Data { seq: Seq },
    Ack { received: Seq },
    Consumed { seq: Seq, consumed: u32 },
    SendFinish { seq: Seq },
    ReceiveClose { seq: Seq },
    ReceiveFinish { seq: Seq },
    TestData { size: usize },
    SetBlock { blocked: bool },
    Goodbye,
    Terminate,
}

impl LinkMsg {
    pub const PROTOCOL_VERSION: u8 = 4;

    pub const MSG_WELCOME: u8 = 1;

    pub const MSG_CONNECT: u8 = 2;

    pub const MSG_ACCEPTED: u8 = 3;

    pub const MSG_REFUSED: u8 = 4;

    pub const MSG_PING: u8 = 5;

    pub const MSG_PONG: u8 = 6;

    pub const MSG_DATA: u8 = 7;

    pub const MSG_ACK: u8 = 8;

    pub const MSG_CONSUMED: u8 = 9;

    pub const MSG_SEND_FINISH: u8 = 10;

    pub const MSG_RECEIVE_CLOSE: u8 = 11;

    pub const MSG_RECEIVE_FINISH: u8 = 12;

    pub const MSG_TEST_DATA: u8 = 13;

    pub const MSG_SET_BLOCK: u8 = 14;

    pub const MSG_GOODBYE: u8 = 15;

    pub const MSG_TERMINATE: u8 = 16;

    // How many bytes follow the kind byte: of a Refused or SetBlock, of a number alone, of a Consumed, and the most of a
    // TestData. A handshake opens with its magic bytes.
    pub const LEN_BYTE: usize = 1;

    pub const LEN_NUMBER: usize = 4;

    pub const LEN_CONSUMED: usize = 8;

    pub const MAX_TEST_DATA: usize = 1024;

    pub const LEN_MAGIC: usize = 5;
}
