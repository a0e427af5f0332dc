// What a call's words say.
ghost use Rattle.std.specs.Prelude.{◌≡◌};
ghost use Rattle.runs.specs.Asked.{slot_of, plain_given, given, withinb};

use msg::{LinkMsg, ReliableMsg};

// A number of 32 bits is below this.
pub(crate) const HALF: u64 = 0x1_0000_0000;

// A slot above 255 is read as 255, which holds no link: so says the definition of this name, which the run's promise cites.
pub(crate) fn slot_of(word: u64) -> u8
    ensures { result ≡ slot_of word }
{
    if word <= 255 {
        return word as u8;
    }
    255
}

// Whether a part lies within so many bytes.
pub(crate) fn within(from: u64, len: u64, bytes: usize) -> bool
    ensures { result ≡ withinb from len bytes }
{
    let all = bytes as u64;
    if all < from {
        return false;
    }
    len <= all - from
}

// The message that has no count.
fn plain_given(kind: u64) -> Option<ReliableMsg>
    ensures { result ≡ plain_given kind }
{
    if kind == LinkMsg::MSG_DATA as u64 {
        return Some(ReliableMsg::Data);
    }
    if kind == LinkMsg::MSG_SEND_FINISH as u64 {
        return Some(ReliableMsg::SendFinish);
    }
    if kind == LinkMsg::MSG_RECEIVE_CLOSE as u64 {
        return Some(ReliableMsg::ReceiveClose);
    }
    if kind == LinkMsg::MSG_RECEIVE_FINISH as u64 {
        return Some(ReliableMsg::ReceiveFinish);
    }
    None
}

// The message that a kind and a count name: a count is a Consumed's alone. Data is told first, since most messages are.
pub(crate) fn message_given(kind: u64, count: u64) -> Option<ReliableMsg>
    ensures { result ≡ given kind count }
{
    if kind == LinkMsg::MSG_DATA as u64 {
        if count == 0 {
            return Some(ReliableMsg::Data);
        }
        return None;
    }
    if HALF <= count {
        return None;
    }
    if kind == LinkMsg::MSG_CONSUMED as u64 {
        return Some(ReliableMsg::Consumed(count as u32));
    }
    if count != 0 {
        return None;
    }
    plain_given(kind)
}
