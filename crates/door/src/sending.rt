// Messages that are sent, and what becomes of them.
ghost use Rattle.std.specs.Prelude.{◌≡◌, length};
ghost use Rattle.std.proofs.lemmas.List.Edits.{sets};
ghost use Rattle.engine.specs.Acking.{ack_of};
ghost use Rattle.engine.specs.Answer.{outcome_told};
ghost use Rattle.engine.specs.Deadlines.{confirm_timeout_told, earliest_confirm_timeout_of};
ghost use Rattle.engine.specs.Flushing.{flush_of};
ghost use Rattle.engine.specs.Resending.{resend_told, resend_of};
ghost use Rattle.engine.specs.Sending.{send_told, send_of, send_store};
ghost use Rattle.engine.specs.Unconfirming.{unconfirm_of, remove_of};
ghost use Rattle.words.specs.Meaning.{state_of};
ghost use Rattle.words.specs.Ready.{Left};
ghost use Rattle.door.specs.Given.{asked, given, timeout_given};

use crate::answers::{UNKNOWN, UNSOUND, WRONG_LENGTH, tell, tell_resent, tell_sent, tell_timeout};
use crate::given::message_given;
use engine::SENT_BYTES;
use judging::{as_mut_sound, as_sound};
use link::AckTimeout;
use msg::ReliableMsg;
use sending_in_place::{acking, deadlines, flushing, resending, sending, unconfirming};
use seq::Seq;

fn send_message(
    words: &mut [u64],
    store: &mut [u8],
    slot: u8,
    time: u64,
    msg: ReliableMsg,
    payload: &[u8],
    values: &mut [u64; 3],
) -> u64
    ensures value { result ≡ (send_told (send_of (state_of words.old) (length store.old) slot time msg (length payload.now)).answer).number }
    ensures words_after { state_of words.new ≡ (send_of (state_of words.old) (length store.old) slot time msg (length payload.now)).state }
    ensures store_after { store.new ≡ send_store (state_of words.old) store.old slot time msg payload.now }
    ensures values_after { values.new ≡ sets values.old 0 (send_told (send_of (state_of words.old) (length store.old) slot time msg (length payload.now)).answer).values }
    ensures left { Left result words.old words.new }
{
    if store.len() != SENT_BYTES {
        return WRONG_LENGTH;
    }
    let Some(words) = as_mut_sound(words) else {
        return UNSOUND;
    };
    tell_sent(
        sending::send(words, store, slot, time, msg, payload),
        values,
    )
}

// Sends a message over a link; the value is its number. Its kind and count name it: 20 where they name none.
#[unsafe(no_mangle)]
pub extern "C" fn fk_send(
    words: &mut [u64],
    store: &mut [u8],
    slot: u8,
    time: u64,
    kind: u8,
    count: u32,
    payload: &[u8],
    values: &mut [u64; 3],
) -> u64
    ensures value { result ≡ asked (given kind count) (λ m. (send_told (send_of (state_of words.old) (length store.old) slot time m (length payload.now)).answer).number) 20 }
    ensures words_after { state_of words.new ≡ asked (given kind count) (λ m. (send_of (state_of words.old) (length store.old) slot time m (length payload.now)).state) (state_of words.old) }
    ensures store_after { store.new ≡ asked (given kind count) (λ m. send_store (state_of words.old) store.old slot time m payload.now) store.old }
    ensures values_after { values.new ≡ asked (given kind count) (λ m. sets values.old 0 (send_told (send_of (state_of words.old) (length store.old) slot time m (length payload.now)).answer).values) values.old }
    ensures left { Left result words.old words.new }
{
    let asked = message_given(kind, count);
    match asked {
        None => UNKNOWN,
        Some(msg) => send_message(words, store, slot, time, msg, payload, values),
    }
}

// Puts a queued packet on another link; the values are its kind, count and length.
#[unsafe(no_mangle)]
pub extern "C" fn fk_resend(
    words: &mut [u64],
    slot: u8,
    time: u64,
    number: u32,
    values: &mut [u64; 3],
) -> u64
    ensures value { result ≡ (resend_told (resend_of (state_of words.old) slot time number).answer).number }
    ensures words_after { state_of words.new ≡ (resend_of (state_of words.old) slot time number).state }
    ensures values_after { values.new ≡ sets values.old 0 (resend_told (resend_of (state_of words.old) slot time number).answer).values }
    ensures left { Left result words.old words.new }
{
    let Some(words) = as_mut_sound(words) else {
        return UNSOUND;
    };
    tell_resent(resending::resend(words, slot, time, Seq(number)), values)
}

// An ack of a number arrived.
#[unsafe(no_mangle)]
pub extern "C" fn fk_ack(words: &mut [u64], slot: u8, time: u64, number: u32) -> u64
    ensures value { result ≡ (outcome_told (ack_of (state_of words.old) slot time number).outcome).number }
    ensures words_after { state_of words.new ≡ (ack_of (state_of words.old) slot time number).state }
    ensures left { Left result words.old words.new }
{
    let Some(words) = as_mut_sound(words) else {
        return UNSOUND;
    };
    tell(acking::ack(words, slot, time, Seq(number)))
}

#[unsafe(no_mangle)]
pub extern "C" fn fk_flush(words: &mut [u64], slot: u8, time: u64) -> u64
    ensures value { result ≡ (outcome_told (flush_of (state_of words.old) slot time).outcome).number }
    ensures words_after { state_of words.new ≡ (flush_of (state_of words.old) slot time).state }
    ensures left { Left result words.old words.new }
{
    let Some(words) = as_mut_sound(words) else {
        return UNSOUND;
    };
    tell(flushing::flush(words, slot, time))
}

#[unsafe(no_mangle)]
pub extern "C" fn fk_unconfirm(words: &mut [u64], slot: u8) -> u64
    ensures value { result ≡ (outcome_told (unconfirm_of (state_of words.old) slot).outcome).number }
    ensures words_after { state_of words.new ≡ (unconfirm_of (state_of words.old) slot).state }
    ensures left { Left result words.old words.new }
{
    let Some(words) = as_mut_sound(words) else {
        return UNSOUND;
    };
    tell(unconfirming::unconfirm(words, slot))
}

#[unsafe(no_mangle)]
pub extern "C" fn fk_remove(words: &mut [u64], slot: u8) -> u64
    ensures value { result ≡ (outcome_told (remove_of (state_of words.old) slot).outcome).number }
    ensures words_after { state_of words.new ≡ (remove_of (state_of words.old) slot).state }
    ensures left { Left result words.old words.new }
{
    let Some(words) = as_mut_sound(words) else {
        return UNSOUND;
    };
    tell(unconfirming::remove(words, slot))
}

// The oldest packet that is Sent, and until when its ack is waited for: its slot, 1 where it was flushed, and the time; no value where none is Sent.
#[unsafe(no_mangle)]
pub extern "C" fn fk_earliest_confirm_timeout(
    words: &[u64],
    roundtrip_factor: u64,
    resent_factor: u64,
    unreliable_factor: u64,
    min: u64,
    max: u64,
    unreliable: bool,
    values: &mut [u64; 3],
) -> u64
    ensures value { result ≡ (confirm_timeout_told (earliest_confirm_timeout_of (state_of words.now) (timeout_given roundtrip_factor resent_factor unreliable_factor min max) unreliable)).number }
    ensures values_after { values.new ≡ sets values.old 0 (confirm_timeout_told (earliest_confirm_timeout_of (state_of words.now) (timeout_given roundtrip_factor resent_factor unreliable_factor min max) unreliable)).values }
{
    let Some(words) = as_sound(words) else {
        return UNSOUND;
    };
    let timeout = AckTimeout {
        roundtrip_factor,
        resent_factor,
        unreliable_factor,
        min,
        max,
    };
    tell_timeout(
        deadlines::earliest_confirm_timeout(words, timeout, unreliable),
        values,
    )
}
