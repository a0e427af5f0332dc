// Messages that are sent, and what becomes of them.
ghost use Rattle.std.specs.Prelude.{◌≡◌, length, get_or};
ghost use Rattle.words.specs.Ready.{Ready};
ghost use Rattle.laws.specs.Calls.{Ack, Resend, Send};
ghost use Rattle.runs.specs.Asked.{It, numbered, parted, slot_of, send_asked, sending_asked};
ghost use Rattle.runs.specs.Did.{OnSent, OnWords};

use crate::answers::{Answer, no_call, tell, tell_resent, tell_sent};
use crate::given::{HALF, message_given, slot_of, within};
use msg::ReliableMsg;
use sending_in_place::{acking, flushing, resending, sending};
use seq::Seq;
use words::layout::WORDS;

fn ack_call(words: &mut [u64; WORDS], slot: u8, time: u64, number: u64) -> Answer
    requires { Ready words.old }
    ensures { OnWords (numbered number (It (Ack slot time number))) words.old words.new result }
{
    if HALF <= number {
        return no_call();
    }
    tell(acking::ack(words, slot, time, Seq(number as u32)))
}

fn resend_call(words: &mut [u64; WORDS], slot: u8, time: u64, number: u64) -> Answer
    requires { Ready words.old }
    ensures { OnWords (numbered number (It (Resend slot time number))) words.old words.new result }
{
    if HALF <= number {
        return no_call();
    }
    tell_resent(resending::resend(words, slot, time, Seq(number as u32)))
}

fn send_message(
    words: &mut [u64; WORDS],
    sent: &mut [u8],
    call: &[u64],
    msg: ReliableMsg,
    bytes: &[u8],
) -> Answer
    requires { Ready words.old × (length call.now ≡ 8) }
    ensures { OnSent (parted (get_or call.now 5 0) (get_or call.now 6 0) bytes.now (λ part. It (Send (slot_of (get_or call.now 1 0)) (get_or call.now 2 0) msg part))) words.old sent.old words.new sent.new result }
{
    let from = call[5];
    let len = call[6];
    if !within(from, len, bytes.len()) {
        return no_call();
    }
    let start = from as usize;
    let end = start + len as usize;
    let slot = slot_of(call[1]);
    tell_sent(sending::send(words, sent, slot, call[2], msg, &bytes[start..end]))
}

fn send_call(words: &mut [u64; WORDS], sent: &mut [u8], call: &[u64], bytes: &[u8]) -> Answer
    requires { Ready words.old × (length call.now ≡ 8) }
    ensures { OnSent (send_asked call.now bytes.now) words.old sent.old words.new sent.new result }
{
    let given = message_given(call[3], call[4]);
    match given {
        None => no_call(),
        Some(msg) => send_message(words, sent, call, msg, bytes),
    }
}

// The calls 9 to 12: those of every message first.
pub(crate) fn sending_call(
    words: &mut [u64; WORDS],
    sent: &mut [u8],
    call: &[u64],
    bytes: &[u8],
) -> Answer
    requires { Ready words.old × (length call.now ≡ 8) }
    ensures { OnSent (sending_asked call.now bytes.now) words.old sent.old words.new sent.new result }
{
    let n = call[0];
    if n == 10 {
        return send_call(words, sent, call, bytes);
    }
    let slot = slot_of(call[1]);
    if n == 12 {
        return ack_call(words, slot, call[2], call[3]);
    }
    if n == 9 {
        return tell(flushing::flush(words, slot, call[2]));
    }
    if n == 11 {
        return resend_call(words, slot, call[2], call[3]);
    }
    no_call()
}
