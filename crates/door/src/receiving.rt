// Messages that arrive, are shown and are taken.
ghost use Rattle.std.specs.Prelude.{◌≡◌, length};
ghost use Rattle.std.proofs.lemmas.List.Edits.{sets};
ghost use Rattle.engine.specs.Answer.{outcome_told};
ghost use Rattle.engine.specs.HandingOut.{hand_out_told, showing_of, take_of, take_records};
ghost use Rattle.engine.specs.Receiving.{receive_of, receive_store, receive_records};
ghost use Rattle.words.specs.Meaning.{state_of};
ghost use Rattle.words.specs.Ready.{Left};
ghost use Rattle.door.specs.Given.{asked, given};

use crate::answers::{UNKNOWN, UNSOUND, WRONG_LENGTH, tell, tell_message};
use crate::given::{message_given, rx_said};
use engine::receiving::lengths_ok;
use judging::{as_mut_sound_with, as_sound_with};
use msg::ReliableMsg;
use receiving_in_place::{handing_out, receiving};
use seq::Seq;

fn receive_message(
    words: &mut [u64],
    store: &mut [u8],
    records: &mut [u64],
    slot: u8,
    msg: ReliableMsg,
    number: u32,
    payload: &[u8],
) -> u64
    ensures value { result ≡ (outcome_told (receive_of (state_of words.old) (length store.old) records.old slot msg number (length payload.now)).outcome).number }
    ensures words_after { state_of words.new ≡ (receive_of (state_of words.old) (length store.old) records.old slot msg number (length payload.now)).state }
    ensures store_after { store.new ≡ receive_store (state_of words.old) store.old records.old slot msg number payload.now }
    ensures records_after { records.new ≡ receive_records (state_of words.old) (length store.old) records.old slot msg number (length payload.now) }
    ensures left { Left result words.old words.new }
{
    let rx = rx_said(words);
    if !lengths_ok(rx, store.len(), records.len()) {
        return WRONG_LENGTH;
    }
    let Some(words) = as_mut_sound_with(words, records) else {
        return UNSOUND;
    };
    tell(receiving::receive(words, store, records, slot, msg, Seq(number), payload))
}

// Receives a message over a link. Its kind and count name it: 20 where they name none.
#[unsafe(no_mangle)]
pub extern "C" fn fk_receive(
    words: &mut [u64],
    store: &mut [u8],
    records: &mut [u64],
    slot: u8,
    kind: u8,
    number: u32,
    count: u32,
    payload: &[u8],
) -> u64
    ensures value { result ≡ asked (given kind count) (λ m. (outcome_told (receive_of (state_of words.old) (length store.old) records.old slot m number (length payload.now)).outcome).number) 20 }
    ensures words_after { state_of words.new ≡ asked (given kind count) (λ m. (receive_of (state_of words.old) (length store.old) records.old slot m number (length payload.now)).state) (state_of words.old) }
    ensures store_after { store.new ≡ asked (given kind count) (λ m. receive_store (state_of words.old) store.old records.old slot m number payload.now) store.old }
    ensures records_after { records.new ≡ asked (given kind count) (λ m. receive_records (state_of words.old) (length store.old) records.old slot m number (length payload.now)) records.old }
    ensures left { Left result words.old words.new }
{
    let asked = message_given(kind, count);
    match asked {
        None => UNKNOWN,
        Some(msg) => receive_message(words, store, records, slot, msg, number, payload),
    }
}

// What taking would take: kind, number and length. The bytes of a Data start in the received store where its cell does, at 1,024 times the number's remainder by the cell count.
#[unsafe(no_mangle)]
pub extern "C" fn fk_showing(
    words: &[u64],
    store: &[u8],
    records: &[u64],
    values: &mut [u64; 3],
) -> u64
    ensures value { result ≡ (hand_out_told (showing_of (state_of words.now) (length store.now) records.now)).number }
    ensures values_after { values.new ≡ sets values.old 0 (hand_out_told (showing_of (state_of words.now) (length store.now) records.now)).values }
{
    let rx = rx_said(words);
    if !lengths_ok(rx, store.len(), records.len()) {
        return WRONG_LENGTH;
    }
    let Some(words) = as_sound_with(words, records) else {
        return UNSOUND;
    };
    tell_message(handing_out::showing(words, store.len(), records), values)
}

// Takes the oldest ready message: kind, number and length.
#[unsafe(no_mangle)]
pub extern "C" fn fk_take(words: &mut [u64], records: &mut [u64], values: &mut [u64; 3]) -> u64
    ensures value { result ≡ (hand_out_told (take_of (state_of words.old) records.old).answer).number }
    ensures words_after { state_of words.new ≡ (take_of (state_of words.old) records.old).state }
    ensures records_after { records.new ≡ take_records (state_of words.old) records.old }
    ensures values_after { values.new ≡ sets values.old 0 (hand_out_told (take_of (state_of words.old) records.old).answer).values }
    ensures left { Left result words.old words.new }
{
    let rx = rx_said(words);
    if records.len() != rx.cells as usize {
        return WRONG_LENGTH;
    }
    let Some(words) = as_mut_sound_with(words, records) else {
        return UNSOUND;
    };
    tell_message(handing_out::take(words, records), values)
}
