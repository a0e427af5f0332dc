// A link's row, in its fourteen words. Its acks stand elsewhere: a row that is read here has none, and writing one leaves those that wait.
ghost use Rattle.std.specs.Prelude.{◌≡◌, ◌<◌, ◌^◌, length};
ghost use Rattle.link.specs.Fields.{with_acks, with_trip, with_sending};
ghost use Rattle.link.specs.Row.{with_unacked};
ghost use Rattle.engine.specs.Sound.{row_at};
ghost use Rattle.engine.specs.Fields.{with_row};
ghost use Rattle.words.specs.Layout.{WORDS};
ghost use Rattle.words.specs.Meaning.{row_of, state_of};
ghost use Rattle.words.specs.Encoded.{no_acks, bare, limit_word, row_words, acked_words};

use crate::bits::{flag, half, is_set, seq_word};
use crate::layout::{ACK_COUNT, ROW, ROW_WORDS, ROWS, WORDS};
use link::LinkRow;
use link::sizes::ACKS;
use seq::Seq;

fn row_in(part: &[u64]) -> LinkRow
    requires { length part.now ≡ 14 }
    ensures { result ≡ row_of part.now no_acks }
{
    let mark = seq_word(part[9]);
    LinkRow {
        live: is_set(part[0]),
        link_id: part[1],
        roundtrip: part[2],
        max_ping: is_set(part[3]).then_some(part[4]),
        blocked: is_set(part[5]),
        unconfirmed: is_set(part[6]),
        zero_estimate: is_set(part[7]),
        limit_increased: is_set(part[8]).then_some(mark),
        current_ping_sent: is_set(part[10]).then_some(part[11]),
        txed_unacked_data: half(part[12]),
        tx_ack_queue: [Seq::ZERO; ACKS],
        ack_count: part[13] as usize,
    }
}

// The row of a slot.
pub fn row_at(words: &[u64; WORDS], slot: usize) -> LinkRow
    requires { slot < 8 }
    ensures { result ≡ bare (row_at (state_of words.now) slot) }
{
    let start = ROWS + slot * ROW;
    let end = start + ROW_WORDS;
    row_in(&words[start..end])
}

// The mark's word: 0 where there is none.
fn limit_word(limit: Option<Seq>) -> u64
    ensures value { result ≡ limit_word limit }
    ensures upper_bound { result < 2 ^ 32 }
{
    u64::from(limit.unwrap_or(Seq::ZERO).0)
}

fn write_row(part: &mut [u64], row: LinkRow)
    requires { length part.old ≡ 14 }
    ensures part_after { part.new ≡ row_words row }
    ensures limit_increased_bound { limit_word row.limit_increased < 2 ^ 32 }
{
    let max_ping = row.max_ping;
    let limit = row.limit_increased;
    let ping = row.current_ping_sent;
    part.copy_from_slice(&[
        flag(row.live),
        row.link_id,
        row.roundtrip,
        flag(max_ping.is_some()),
        max_ping.unwrap_or(0),
        flag(row.blocked),
        flag(row.unconfirmed),
        flag(row.zero_estimate),
        flag(limit.is_some()),
        limit_word(limit),
        flag(ping.is_some()),
        ping.unwrap_or(0),
        u64::from(row.txed_unacked_data),
        row.ack_count as u64,
    ]);
}

// Another row in a slot.
pub fn put_row(words: &mut [u64; WORDS], slot: usize, row: LinkRow)
    requires { slot < 8 }
    ensures { state_of words.new ≡ with_row (state_of words.old) slot (with_acks row (row_at (state_of words.old) slot).tx_ack_queue row.ack_count) }
{
    let start = ROWS + slot * ROW;
    let end = start + ROW_WORDS;
    write_row(&mut words[start..end], row);
}

// A slot's link has so many bytes on the way.
pub fn put_txed_unacked_data(words: &mut [u64; WORDS], slot: usize, bytes: u32)
    requires { slot < 8 }
    ensures { state_of words.new ≡ with_row (state_of words.old) slot (with_unacked (row_at (state_of words.old) slot) bytes) }
{
    words[ROWS + slot * ROW + 12] = u64::from(bytes);
}

// How many acks of a slot wait: one word. Public, and no crate calls it: it takes any run of so many words.
pub fn ack_count_at(words: &[u64], slot: usize) -> usize
    requires { (length words.now ≡ WORDS) × (slot < 8) }
    ensures { result ≡ (row_at (state_of words.now) slot).ack_count }
{
    words[ROWS + slot * ROW + ACK_COUNT] as usize
}

// .. and another count of them.
pub fn put_ack_count(words: &mut [u64; WORDS], slot: usize, n: usize)
    requires { slot < 8 }
    ensures { state_of words.new ≡ with_row (state_of words.old) slot (with_acks (row_at (state_of words.old) slot) (row_at (state_of words.old) slot).tx_ack_queue n) }
{
    words[ROWS + slot * ROW + ACK_COUNT] = n as u64;
}

fn write_acked(part: &mut [u64], row: LinkRow)
    requires { length part.old ≡ 14 }
    ensures part_after { part.new ≡ acked_words part.old row }
    ensures limit_increased_bound { limit_word row.limit_increased < 2 ^ 32 }
{
    let limit = row.limit_increased;
    part[2] = row.roundtrip;
    part[7] = flag(row.zero_estimate);
    part[8] = flag(limit.is_some());
    part[9] = limit_word(limit);
    part[12] = u64::from(row.txed_unacked_data);
}

// What an ack changes of a slot's row: the round trip, its flag, the mark and the unacked bytes are those of another.
pub fn put_acked(words: &mut [u64; WORDS], slot: usize, row: LinkRow)
    requires { slot < 8 }
    ensures { state_of words.new ≡ with_row (state_of words.old) slot (with_trip (with_sending (row_at (state_of words.old) slot) row.limit_increased row.txed_unacked_data) row.roundtrip row.zero_estimate (row_at (state_of words.old) slot).current_ping_sent) }
{
    let start = ROWS + slot * ROW;
    let end = start + ROW_WORDS;
    write_acked(&mut words[start..end], row);
}
