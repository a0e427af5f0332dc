// Messages by their words: the kind byte, and then what that kind carries.
use crate::words::Words;
use msg::{LinkMsg, RefusedReason, ReliableMsg};
use std::fmt;

fn reason_of(n: u8) -> Option<RefusedReason> {
    match n {
        1 => Some(RefusedReason::Closed),
        2 => Some(RefusedReason::NotListening),
        3 => Some(RefusedReason::ConnectionRefused),
        4 => Some(RefusedReason::LinkRefused),
        _ => None,
    }
}

fn reason_number(reason: RefusedReason) -> u8 {
    match reason {
        RefusedReason::Closed => 1,
        RefusedReason::NotListening => 2,
        RefusedReason::ConnectionRefused => 3,
        RefusedReason::LinkRefused => 4,
    }
}

// The message that the words of a `write` name.
pub fn link_msg(words: &mut Words) -> Option<LinkMsg> {
    Some(match words.byte()? {
        LinkMsg::MSG_WELCOME => LinkMsg::Welcome,
        LinkMsg::MSG_CONNECT => LinkMsg::Connect,
        LinkMsg::MSG_ACCEPTED => LinkMsg::Accepted,
        LinkMsg::MSG_REFUSED => LinkMsg::Refused {
            reason: reason_of(words.byte()?)?,
        },
        LinkMsg::MSG_PING => LinkMsg::Ping,
        LinkMsg::MSG_PONG => LinkMsg::Pong,
        LinkMsg::MSG_DATA => LinkMsg::Data { seq: words.seq()? },
        LinkMsg::MSG_ACK => LinkMsg::Ack {
            received: words.seq()?,
        },
        LinkMsg::MSG_CONSUMED => LinkMsg::Consumed {
            seq: words.seq()?,
            consumed: words.number()?,
        },
        LinkMsg::MSG_SEND_FINISH => LinkMsg::SendFinish { seq: words.seq()? },
        LinkMsg::MSG_RECEIVE_CLOSE => LinkMsg::ReceiveClose { seq: words.seq()? },
        LinkMsg::MSG_RECEIVE_FINISH => LinkMsg::ReceiveFinish { seq: words.seq()? },
        LinkMsg::MSG_TEST_DATA => LinkMsg::TestData {
            size: words.number()? as usize,
        },
        LinkMsg::MSG_SET_BLOCK => LinkMsg::SetBlock {
            blocked: words.flag()?,
        },
        LinkMsg::MSG_GOODBYE => LinkMsg::Goodbye,
        LinkMsg::MSG_TERMINATE => LinkMsg::Terminate,
        _ => return None,
    })
}

// A message as `read` answers it.
#[derive(Clone, Copy)]
pub struct Told(pub LinkMsg);

impl fmt::Display for Told {
    fn fmt<W: fmt::Write>(&self, f: &mut fmt::Formatter<W>) -> fmt::Result {
        let (kind, number) = match self.0 {
            LinkMsg::Welcome => (LinkMsg::MSG_WELCOME, None),
            LinkMsg::Connect => (LinkMsg::MSG_CONNECT, None),
            LinkMsg::Accepted => (LinkMsg::MSG_ACCEPTED, None),
            LinkMsg::Refused { reason } => {
                (LinkMsg::MSG_REFUSED, Some(u64::from(reason_number(reason))))
            }
            LinkMsg::Ping => (LinkMsg::MSG_PING, None),
            LinkMsg::Pong => (LinkMsg::MSG_PONG, None),
            LinkMsg::Data { seq } => (LinkMsg::MSG_DATA, Some(u64::from(seq.0))),
            LinkMsg::Ack { received } => (LinkMsg::MSG_ACK, Some(u64::from(received.0))),
            LinkMsg::Consumed { seq, consumed } => {
                let kind = LinkMsg::MSG_CONSUMED;
                let n = seq.0;
                return write!(f, "{kind} {n} {consumed}");
            }
            LinkMsg::SendFinish { seq } => (LinkMsg::MSG_SEND_FINISH, Some(u64::from(seq.0))),
            LinkMsg::ReceiveClose { seq } => (LinkMsg::MSG_RECEIVE_CLOSE, Some(u64::from(seq.0))),
            LinkMsg::ReceiveFinish { seq } => (LinkMsg::MSG_RECEIVE_FINISH, Some(u64::from(seq.0))),
            LinkMsg::TestData { size } => (LinkMsg::MSG_TEST_DATA, Some(size as u64)),
            LinkMsg::SetBlock { blocked } => (LinkMsg::MSG_SET_BLOCK, Some(u64::from(blocked))),
            LinkMsg::Goodbye => (LinkMsg::MSG_GOODBYE, None),
            LinkMsg::Terminate => (LinkMsg::MSG_TERMINATE, None),
        };
        match number {
            Some(n) => write!(f, "{kind} {n}"),
            None => write!(f, "{kind}"),
        }
    }
}

// The reliable message that a kind and a count name: a count is 0 for every kind but Consumed.
pub fn reliable(kind: u8, count: u32) -> Option<ReliableMsg> {
    let msg = match kind {
        LinkMsg::MSG_DATA => ReliableMsg::Data,
        LinkMsg::MSG_CONSUMED => return Some(ReliableMsg::Consumed(count)),
        LinkMsg::MSG_SEND_FINISH => ReliableMsg::SendFinish,
        LinkMsg::MSG_RECEIVE_CLOSE => ReliableMsg::ReceiveClose,
        LinkMsg::MSG_RECEIVE_FINISH => ReliableMsg::ReceiveFinish,
        _ => return None,
    };
    (count == 0).then_some(msg)
}
