// Reliable messages: each has a number, is acknowledged by the receiver and resent if lost.
ghost use Rattle.std.specs.Prelude.{◌≡◌};
ghost use Rattle.msg.specs.Reliable.{kind_of, count_of, to_link, from_link};

use crate::link_msg::LinkMsg;
use seq::Seq;

// A message that is resent until it is acknowledged. A Data's bytes are in a cell of a lent store.
#[derive(Clone, Copy, PartialEq, Eq)]
pub enum ReliableMsg {
    Data,
    Consumed(u32),
    SendFinish,
    ReceiveClose,
    ReceiveFinish,
}

impl ReliableMsg {
    pub fn to_link_msg(self, seq: Seq) -> LinkMsg
        ensures { result ≡ to_link self seq }
    {
        match self {
            ReliableMsg::Data => LinkMsg::Data { seq },
            ReliableMsg::Consumed(n) => LinkMsg::Consumed { seq, consumed: n },
            ReliableMsg::SendFinish => LinkMsg::SendFinish { seq },
            ReliableMsg::ReceiveClose => LinkMsg::ReceiveClose { seq },
            ReliableMsg::ReceiveFinish => LinkMsg::ReceiveFinish { seq },
        }
    }

    // Its kind byte.
    pub fn kind(self) -> u8
        ensures { result ≡ kind_of self }
    {
        match self {
            ReliableMsg::Data => LinkMsg::MSG_DATA,
            ReliableMsg::Consumed(_) => LinkMsg::MSG_CONSUMED,
            ReliableMsg::SendFinish => LinkMsg::MSG_SEND_FINISH,
            ReliableMsg::ReceiveClose => LinkMsg::MSG_RECEIVE_CLOSE,
            ReliableMsg::ReceiveFinish => LinkMsg::MSG_RECEIVE_FINISH,
        }
    }

    // What a Consumed tells; 0 for any other.
    pub fn count(self) -> u32
        ensures { result ≡ count_of self }
    {
        match self {
            ReliableMsg::Consumed(n) => n,
            _ => 0,
        }
    }

    // What a link message carries: a reliable message under its number, or none.
    pub fn from_link_msg(msg: LinkMsg) -> Option<(ReliableMsg, Seq)>
        ensures { result ≡ from_link msg }
    {
        match msg {
            LinkMsg::Data { seq } => Some((ReliableMsg::Data, seq)),
            LinkMsg::Consumed { seq, consumed } => Some((ReliableMsg::Consumed(consumed), seq)),
            LinkMsg::SendFinish { seq } => Some((ReliableMsg::SendFinish, seq)),
            LinkMsg::ReceiveClose { seq } => Some((ReliableMsg::ReceiveClose, seq)),
            LinkMsg::ReceiveFinish { seq } => Some((ReliableMsg::ReceiveFinish, seq)),
            _ => None,
        }
    }
}
