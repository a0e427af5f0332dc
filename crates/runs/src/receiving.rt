// Messages that arrive, are shown and are taken.
ghost use Rattle.std.specs.Prelude.{◌≡◌, ◌<◌, length, get_or};
ghost use Rattle.receiving_in_place.specs.ReadyWith.{ReadyWith};
ghost use Rattle.laws.specs.Calls.{Receive};
ghost use Rattle.runs.specs.Asked.{It, parted, slot_of, receive_asked, receiving_asked};
ghost use Rattle.runs.specs.Did.{OnReceived};

use crate::answers::{Answer, no_call, tell, tell_message};
use crate::given::{HALF, message_given, slot_of, within};
use msg::ReliableMsg;
use receiving_in_place::{handing_out, receiving};
use seq::Seq;
use words::layout::WORDS;

fn receive_message(
    words: &mut [u64; WORDS],
    received: &mut [u8],
    records: &mut [u64],
    call: &[u64],
    msg: ReliableMsg,
    bytes: &[u8],
) -> Answer
    requires { ReadyWith words.old records.old × ((length call.now ≡ 8) × (get_or call.now 3 0 < 4294967296)) }
    ensures { OnReceived (parted (get_or call.now 5 0) (get_or call.now 6 0) bytes.now (λ part. It (Receive (slot_of (get_or call.now 1 0)) msg (get_or call.now 3 0) part))) words.old received.old records.old words.new received.new records.new result }
{
    let from = call[5];
    let len = call[6];
    if !within(from, len, bytes.len()) {
        return no_call();
    }
    let start = from as usize;
    let end = start + len as usize;
    let slot = slot_of(call[1]);
    let seq = Seq(call[3] as u32);
    tell(receiving::receive(words, received, records, slot, msg, seq, &bytes[start..end]))
}

fn receive_call(
    words: &mut [u64; WORDS],
    received: &mut [u8],
    records: &mut [u64],
    call: &[u64],
    bytes: &[u8],
) -> Answer
    requires { ReadyWith words.old records.old × (length call.now ≡ 8) }
    ensures { OnReceived (receive_asked call.now bytes.now) words.old received.old records.old words.new received.new records.new result }
{
    if HALF <= call[3] {
        return no_call();
    }
    let given = message_given(call[2], call[4]);
    match given {
        None => no_call(),
        Some(msg) => receive_message(words, received, records, call, msg, bytes),
    }
}

// The calls 13 to 15.
pub(crate) fn receiving_call(
    words: &mut [u64; WORDS],
    received: &mut [u8],
    records: &mut [u64],
    call: &[u64],
    bytes: &[u8],
) -> Answer
    requires { ReadyWith words.old records.old × (length call.now ≡ 8) }
    ensures { OnReceived (receiving_asked call.now bytes.now) words.old received.old records.old words.new received.new records.new result }
{
    let n = call[0];
    if n == 13 {
        return receive_call(words, received, records, call, bytes);
    }
    if n == 14 {
        return tell_message(handing_out::showing(words, received.len(), records));
    }
    if n == 15 {
        return tell_message(handing_out::take(words, records));
    }
    no_call()
}
