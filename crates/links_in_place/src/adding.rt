// Adding a link.
ghost use Rattle.std.specs.Prelude.{◌≡◌, ◌&&◌, ◌<◌, eqb, length};
ghost use Rattle.link.specs.Fields.{with_acks};
ghost use Rattle.engine.specs.Fields.{with_row};
ghost use Rattle.engine.specs.Links.{is_taken, add_of, add_told};
ghost use Rattle.engine.specs.Sizes.{SLOTS};
ghost use Rattle.engine.specs.Sound.{row_at};
ghost use Rattle.words.specs.Encoded.{no_acks};
ghost use Rattle.words.specs.Layout.{WORDS};
ghost use Rattle.words.specs.Meaning.{state_of};
ghost use Rattle.words.specs.Ready.{Ready, Left};
ghost use Rattle.links_in_place.specs.Adding.{lowest_slot};

use engine::sizes::SLOT_END;
use engine::starting::empty_records;
use link::LinkRow;
use link::sizes::{ACKS, MAX_TIME, max_ping_within};
use refusal::{Refusal, refuse_unless};
use words::gates::slot_ok;
use words::layout::{ACKS_START, ROW, ROWS, WORDS};
use words::row::put_row;

// Where the identity of the first row stands.
const IDENTITY: usize = ROWS + 1;

// The lowest slot without a link.
fn lowest_empty(words: &[u64; WORDS]) -> Option<u8>
    ensures { result ≡ lowest_slot (state_of words.now) }
{
    for slot in 0..SLOT_END {
        if !slot_ok(words, slot) {
            return Some(slot);
        }
    }
    None
}

// Whether a slot has a live link with the identity.
fn lives(words: &[u64; WORDS], slot: u8, link_id: u64) -> bool
    requires { slot < SLOTS }
    ensures { result ≡ ((row_at (state_of words.now) slot).live && eqb (row_at (state_of words.now) slot).link_id link_id) }
{
    slot_ok(words, slot) && words[IDENTITY + usize::from(slot) * ROW] == link_id
}

// Whether the identity belongs to a live link.
fn is_taken(words: &[u64; WORDS], link_id: u64) -> bool
    ensures { result ≡ is_taken (state_of words.now).links link_id }
{
    for slot in 0..SLOT_END {
        if lives(words, slot, link_id) {
            return true;
        }
    }
    false
}

// A slot's acks, all 0.
fn clear_acks(words: &mut [u64; WORDS], slot: usize)
    requires { slot < 8 }
    ensures { state_of words.new ≡ with_row (state_of words.old) slot (with_acks (row_at (state_of words.old) slot) no_acks (row_at (state_of words.old) slot).ack_count) }
{
    let start = ACKS_START + slot * ACKS;
    let end = start + ACKS;
    empty_records(&mut words[start..end]);
}

// A row with no ack in a slot.
pub fn put_new(words: &mut [u64; WORDS], slot: usize, row: LinkRow)
    requires { slot < 8 }
    ensures { state_of words.new ≡ with_row (state_of words.old) slot (with_acks row no_acks row.ack_count) }
{
    clear_acks(words, slot);
    put_row(words, slot, row);
}

// Adds a link in the lowest empty slot, and answers the slot.
pub fn add(
    words: &mut [u64; WORDS],
    link_id: u64,
    roundtrip: u64,
    max_ping: Option<u64>,
    blocked: bool,
    unconfirmed: bool,
) -> Result<u8, Refusal>
    requires { Ready words.old }
    ensures value { result ≡ (add_of (state_of words.old) link_id roundtrip max_ping blocked unconfirmed).answer }
    ensures words_after { state_of words.new ≡ (add_of (state_of words.old) link_id roundtrip max_ping blocked unconfirmed).state }
    ensures left { Left (add_told result).number words.old words.new }
{
    let timed = roundtrip <= MAX_TIME && max_ping_within(max_ping);
    refuse_unless(timed, Refusal::Time)?;
    let slot = lowest_empty(words).ok_or(Refusal::NoSlot)?;
    refuse_unless(!is_taken(words, link_id), Refusal::Identity)?;
    let row = LinkRow::fresh(link_id, roundtrip, max_ping, blocked, unconfirmed);
    put_new(words, usize::from(slot), row);
    Ok(slot)
}
