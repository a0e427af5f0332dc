// Adding a link, and the plain changes of a row.
ghost use Rattle.std.specs.Prelude.{◌≡◌, cond, [], ◌∷◌, nat_lt, Some, None, Ok};
ghost use Rattle.link.specs.declared.row.LinkRow.{LinkRow};
ghost use Rattle.refusal.specs.Answers.{told_by};
ghost use Rattle.engine.specs.Answer.{outcome_told, changed_by};
ghost use Rattle.engine.specs.Rows.{row_of};
ghost use Rattle.engine.specs.Fields.{with_row, with_time};
ghost use Rattle.engine.specs.Gates.{slot_verdict, timed_verdict};
ghost use Rattle.engine.specs.Sizes.{SLOTS};
ghost use Rattle.engine.specs.Links.{lowest_empty, lowest_in, is_taken, slot_by, add_verdict, add_told, add_of, confirm_of, block_of, ping_of, pong_of, mark_of};

use crate::answer::{Changed, change};
use crate::gates::{slot_verdict, timed_verdict};
use crate::rows::{row_of, with_row, with_time};
use crate::sizes::SLOTS;
use crate::sound::is_sound;
use crate::state::State;
use link::LinkRow;
use link::sizes::{MAX_TIME, max_ping_within};
use refusal::{Refusal, refuse_unless};
use seq::Seq;

// This and the answers of `take` and `take_ack` are types apart, since `add_of`, `take_of` and `take_ack_of` name each.
#[derive(Clone, Copy)]
pub struct Added {
    pub answer: Result<u8, Refusal>,
    pub state: State,
}

// The lowest slot without a link, where there is one.
fn lowest_empty(links: [LinkRow; SLOTS]) -> Option<usize>
    ensures { result ≡ cond (nat_lt (lowest_empty links 0) SLOTS) (Some (lowest_empty links 0)) None }
{
    links.iter().position(|row| !row.live)
}

// Whether the identity belongs to a live link.
fn is_taken(links: [LinkRow; SLOTS], link_id: u64) -> bool
    ensures { result ≡ is_taken links link_id }
{
    links.iter().any(|row| row.live && row.link_id == link_id)
}

// The slot that a new link gets, or why there is none for it.
#[tactic(auto, unfolding(crate::specs::Links::add_verdict))]
fn slot_for(s: State, link_id: u64, roundtrip: u64, max_ping: Option<u64>) -> Result<u8, Refusal>
    ensures { result ≡ slot_by (add_verdict s link_id roundtrip max_ping) (lowest_in s) }
{
    let timed = roundtrip <= MAX_TIME && max_ping_within(max_ping);
    refuse_unless(is_sound(s), Refusal::Unsound)?;
    refuse_unless(timed, Refusal::Time)?;
    let slot = lowest_empty(s.links).ok_or(Refusal::NoSlot)?;
    refuse_unless(!is_taken(s.links, link_id), Refusal::Identity)?;
    Ok(slot as u8)
}

// Adds a link in the lowest empty slot, and answers the slot.
#[tactic(auto, unfolding(crate::specs::Links::add_of))]
pub fn add(
    s: State,
    link_id: u64,
    roundtrip: u64,
    max_ping: Option<u64>,
    blocked: bool,
    unconfirmed: bool,
) -> Added
    ensures value { result ≡ add_of s link_id roundtrip max_ping blocked unconfirmed }
    ensures answer_value { add_told result.answer ≡ told_by (add_verdict s link_id roundtrip max_ping) (lowest_in s ∷ []) }
{
    let answer = slot_for(s, link_id, roundtrip, max_ping);
    match answer {
        Err(_) => Added { answer, state: s },
        Ok(slot) => {
            let row = LinkRow::fresh(link_id, roundtrip, max_ping, blocked, unconfirmed);
            Added {
                answer,
                state: with_row(s, slot, row),
            }
        }
    }
}

// The row of a slot that holds a link is changed.
fn change_row<F: FnOnce(LinkRow) -> LinkRow>(s: State, slot: u8, f: F) -> Changed
    requires { F.IsAlwaysCallable f }
    ensures { (row : LinkRow) × F.post f (row_of s slot) row × (result ≡ changed_by (slot_verdict s slot) s (with_row s slot row)) }
{
    let next = with_row(s, slot, f(row_of(s, slot)));
    change(slot_verdict(s, slot), s, next)
}

// .. and the last accepted time is this one then.
fn change_row_at<F: FnOnce(LinkRow) -> LinkRow>(s: State, slot: u8, time: u64, f: F) -> Changed
    requires { F.IsAlwaysCallable f }
    ensures { (row : LinkRow) × F.post f (row_of s slot) row × (result ≡ changed_by (timed_verdict s slot time (Ok tt)) s (with_time (with_row s slot row) time)) }
{
    let next = with_row(s, slot, f(row_of(s, slot)));
    change(
        timed_verdict(s, slot, time, Ok(())),
        s,
        with_time(next, time),
    )
}

#[tactic(auto, unfolding(crate::specs::Links::confirm_of))]
pub fn confirm(s: State, slot: u8) -> Changed
    ensures value { result ≡ confirm_of s slot }
    ensures outcome_value { outcome_told result.outcome ≡ told_by (slot_verdict s slot) [] }
{
    change_row(s, slot, |row| row.confirm())
}

#[tactic(auto, unfolding(crate::specs::Links::block_of))]
pub fn block(s: State, slot: u8, blocked: bool) -> Changed
    ensures value { result ≡ block_of s slot blocked }
    ensures outcome_value { outcome_told result.outcome ≡ told_by (slot_verdict s slot) [] }
{
    change_row(s, slot, |row| row.block(blocked))
}

// Sets the limit mark to any number.
#[tactic(auto, unfolding(crate::specs::Links::mark_of))]
pub fn mark(s: State, slot: u8, seq: Seq) -> Changed
    ensures value { result ≡ mark_of s slot seq }
    ensures outcome_value { outcome_told result.outcome ≡ told_by (slot_verdict s slot) [] }
{
    change_row(s, slot, |row| row.mark(Some(seq)))
}

// Notes that a ping was sent.
#[tactic(auto, unfolding(crate::specs::Links::ping_of))]
pub fn ping(s: State, slot: u8, time: u64) -> Changed
    ensures value { result ≡ ping_of s slot time }
    ensures outcome_value { outcome_told result.outcome ≡ told_by (timed_verdict s slot time (Ok tt)) [] }
{
    change_row_at(s, slot, time, |row| row.ping(time))
}

// A pong arrived.
#[tactic(auto, unfolding(crate::specs::Links::pong_of))]
pub fn pong(s: State, slot: u8, time: u64) -> Changed
    ensures value { result ≡ pong_of s slot time }
    ensures outcome_value { outcome_told result.outcome ≡ told_by (timed_verdict s slot time (Ok tt)) [] }
{
    change_row_at(s, slot, time, |row| row.pong(time))
}
