// Links: adding one, and the plain changes of a row.
ghost use Rattle.std.specs.Prelude.{◌≡◌};
ghost use Rattle.std.proofs.lemmas.List.Edits.{sets};
ghost use Rattle.seq.specs.Numbers.{seq_of};
ghost use Rattle.engine.specs.Answer.{outcome_told};
ghost use Rattle.engine.specs.Links.{add_told, add_of, confirm_of, block_of, mark_of, ping_of, pong_of};
ghost use Rattle.words.specs.Meaning.{state_of};
ghost use Rattle.words.specs.Ready.{Left};
ghost use Rattle.door.specs.Given.{max_ping_given};

use crate::answers::{UNSOUND, tell, tell_added};
use crate::given::max_ping_given;
use judging::as_mut_sound;
use links_in_place::{adding, links};
use seq::Seq;

// Adds a link; the value is its slot.
#[unsafe(no_mangle)]
pub extern "C" fn fk_add(
    words: &mut [u64],
    link_id: u64,
    roundtrip: u64,
    limited: bool,
    max_ping: u64,
    blocked: bool,
    unconfirmed: bool,
    values: &mut [u64; 3],
) -> u64
    ensures value { result ≡ (add_told (add_of (state_of words.old) link_id roundtrip (max_ping_given limited max_ping) blocked unconfirmed).answer).number }
    ensures words_after { state_of words.new ≡ (add_of (state_of words.old) link_id roundtrip (max_ping_given limited max_ping) blocked unconfirmed).state }
    ensures values_after { values.new ≡ sets values.old 0 (add_told (add_of (state_of words.old) link_id roundtrip (max_ping_given limited max_ping) blocked unconfirmed).answer).values }
    ensures left { Left result words.old words.new }
{
    let Some(words) = as_mut_sound(words) else {
        return UNSOUND;
    };
    let max = max_ping_given(limited, max_ping);
    let answer = adding::add(words, link_id, roundtrip, max, blocked, unconfirmed);
    tell_added(answer, values)
}

#[unsafe(no_mangle)]
pub extern "C" fn fk_confirm(words: &mut [u64], slot: u8) -> u64
    ensures value { result ≡ (outcome_told (confirm_of (state_of words.old) slot).outcome).number }
    ensures words_after { state_of words.new ≡ (confirm_of (state_of words.old) slot).state }
    ensures left { Left result words.old words.new }
{
    let Some(words) = as_mut_sound(words) else {
        return UNSOUND;
    };
    tell(links::confirm(words, slot))
}

#[unsafe(no_mangle)]
pub extern "C" fn fk_block(words: &mut [u64], slot: u8, blocked: bool) -> u64
    ensures value { result ≡ (outcome_told (block_of (state_of words.old) slot blocked).outcome).number }
    ensures words_after { state_of words.new ≡ (block_of (state_of words.old) slot blocked).state }
    ensures left { Left result words.old words.new }
{
    let Some(words) = as_mut_sound(words) else {
        return UNSOUND;
    };
    tell(links::block(words, slot, blocked))
}

// Sets the limit mark.
#[unsafe(no_mangle)]
pub extern "C" fn fk_mark(words: &mut [u64], slot: u8, number: u32) -> u64
    ensures value { result ≡ (outcome_told (mark_of (state_of words.old) slot (seq_of number)).outcome).number }
    ensures words_after { state_of words.new ≡ (mark_of (state_of words.old) slot (seq_of number)).state }
    ensures left { Left result words.old words.new }
{
    let Some(words) = as_mut_sound(words) else {
        return UNSOUND;
    };
    tell(links::mark(words, slot, Seq(number)))
}

// Notes that a ping was sent.
#[unsafe(no_mangle)]
pub extern "C" fn fk_ping(words: &mut [u64], slot: u8, time: u64) -> u64
    ensures value { result ≡ (outcome_told (ping_of (state_of words.old) slot time).outcome).number }
    ensures words_after { state_of words.new ≡ (ping_of (state_of words.old) slot time).state }
    ensures left { Left result words.old words.new }
{
    let Some(words) = as_mut_sound(words) else {
        return UNSOUND;
    };
    tell(links::ping(words, slot, time))
}

// A pong arrived.
#[unsafe(no_mangle)]
pub extern "C" fn fk_pong(words: &mut [u64], slot: u8, time: u64) -> u64
    ensures value { result ≡ (outcome_told (pong_of (state_of words.old) slot time).outcome).number }
    ensures words_after { state_of words.new ≡ (pong_of (state_of words.old) slot time).state }
    ensures left { Left result words.old words.new }
{
    let Some(words) = as_mut_sound(words) else {
        return UNSOUND;
    };
    tell(links::pong(words, slot, time))
}
