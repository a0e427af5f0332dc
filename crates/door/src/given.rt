// What a host's numbers say.
ghost use Rattle.std.specs.Prelude.{◌≡◌};
ghost use Rattle.words.specs.Meaning.{state_of};
ghost use Rattle.door.specs.Given.{max_ping_given, plain_given, given};

use engine::Receiving;
use msg::{LinkMsg, ReliableMsg};
use seq::Seq;
use words::layout::WORDS;
use words::receiving::rx_of;

// The longest round trip that a link may have, where it has one.
pub(crate) fn max_ping_given(limited: bool, max_ping: u64) -> Option<u64>
    ensures { result ≡ max_ping_given limited max_ping }
{
    limited.then_some(max_ping)
}

// The message that has no count.
fn plain_given(kind: u8) -> Option<ReliableMsg>
    ensures { result ≡ plain_given kind }
{
    match kind {
        LinkMsg::MSG_DATA => Some(ReliableMsg::Data),
        LinkMsg::MSG_SEND_FINISH => Some(ReliableMsg::SendFinish),
        LinkMsg::MSG_RECEIVE_CLOSE => Some(ReliableMsg::ReceiveClose),
        LinkMsg::MSG_RECEIVE_FINISH => Some(ReliableMsg::ReceiveFinish),
        _ => None,
    }
}

// The message that a kind and a count name: a count is a Consumed's alone.
pub(crate) fn message_given(kind: u8, count: u32) -> Option<ReliableMsg>
    ensures { result ≡ given kind count }
{
    if kind == LinkMsg::MSG_CONSUMED {
        return Some(ReliableMsg::Consumed(count));
    }
    if count != 0 {
        return None;
    }
    plain_given(kind)
}

// The receiving half that words say; those of another length say none.
pub(crate) fn rx_said(words: &[u64]) -> Receiving
    ensures { result ≡ (state_of words.now).rx }
{
    let Some(words) = words.as_array::<WORDS>() else {
        return Receiving {
            rx_seq: Seq::ZERO,
            rx_oldest: Seq::ZERO,
            rxed_reliable_size: 0,
            rxed_reliable_consumed: 0,
            recv_buffer: 0,
            cells: 0,
            rx_end: Seq::ZERO,
        };
    };
    rx_of(words)
}
