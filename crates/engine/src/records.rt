// A cell's record: one word of the lent record space. 0 is an empty cell; else the word is a message's kind, 2^8 times its length and
// 2^32 times its count.
ghost use Rattle.std.specs.Prelude.{◌≡◌, ◌/◌, ◌%◌, true};
ghost use Rattle.engine.specs.Records.{is_ready_kind, held_bytes, held_as, held_of, record_of, RecordFits, DataRecord, is_record, kept_of, kept_record};

use crate::packets::is_data;
use crate::sizes::DATA_BYTES;
use crate::state::Held;
use msg::{LinkMsg, ReliableMsg};

// The record of a Data of one byte.
const SHORTEST_DATA: u64 = LinkMsg::MSG_DATA as u64 + 0x100;

pub fn held_bytes(held: Held) -> u32
    ensures { result ≡ held_bytes held }
{
    held.map_or(0, |(_, len)| len)
}

pub fn is_ready_kind(msg: ReliableMsg) -> bool
    ensures { result ≡ is_ready_kind msg }
{
    is_data(msg) || msg.kind() == LinkMsg::MSG_SEND_FINISH
}

// The message of a kind, if it is one that cells hold.
#[tactic(auto, unfolding(crate::specs::Records::held_as))]
fn held_as(kind: u8, len: u32, count: u32) -> Held
    ensures { result ≡ held_as kind len count }
{
    let msg = match kind {
        LinkMsg::MSG_DATA => ReliableMsg::Data,
        LinkMsg::MSG_CONSUMED => ReliableMsg::Consumed(count),
        LinkMsg::MSG_SEND_FINISH => ReliableMsg::SendFinish,
        LinkMsg::MSG_RECEIVE_CLOSE => ReliableMsg::ReceiveClose,
        LinkMsg::MSG_RECEIVE_FINISH => ReliableMsg::ReceiveFinish,
        _ => return None,
    };
    Some((msg, len))
}

// The length that a record has.
pub fn length_in(word: u64) -> u32
    ensures { result ≡ word / 256 % 16777216 }
{
    (word / 0x100 % 0x100_0000) as u32
}

// What a record says; a word that is no record says nothing.
#[tactic(auto, unfolding(crate::specs::Records::held_of))]
pub fn held_of(word: u64) -> Held
    ensures { result ≡ held_of word }
{
    let kind = (word % 0x100) as u8;
    let len = length_in(word);
    let count = (word / 0x1_0000_0000) as u32;
    held_as(kind, len, count)
}

// The record of what a cell holds.
pub fn record_of(held: Held) -> u64
    requires { RecordFits held }
    ensures { result ≡ record_of held }
{
    match held {
        None => 0,
        Some((msg, len)) => {
            let kind = u64::from(msg.kind());
            let count = u64::from(msg.count());
            kind + 0x100 * u64::from(len) + 0x1_0000_0000 * count
        }
    }
}

// Whether a word is the record of a Data with bytes, as most are: less the shortest, it is a number of whole 256s below the longest's.
pub fn is_data_record(word: u64) -> bool
    ensures { result ≡ true → DataRecord word }
{
    let above = word.wrapping_sub(SHORTEST_DATA);
    above % 0x100 == 0 && above < 0x100 * DATA_BYTES as u64
}

// Whether a word is the record of what it says.
#[tactic(auto, unfolding(crate::specs::Records::is_record))]
pub fn is_record(word: u64) -> bool
    ensures { result ≡ is_record word }
{
    record_of(held_of(word)) == word
}

// What stays in the cell of a message that is passed: Data and SendFinish become ready, any other leaves.
fn kept(held: Held) -> Held
    ensures { result ≡ kept_of held }
{
    held.filter(|(msg, _)| is_ready_kind(*msg))
}

#[tactic(auto, unfolding(crate::specs::Records::kept_record))]
pub fn kept_record(word: u64) -> u64
    ensures { result ≡ kept_record word }
{
    let stays = kept(held_of(word));
    if stays.is_some() { word } else { 0 }
}
