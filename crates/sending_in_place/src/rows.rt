// The rows of a state in words.
ghost use Rattle.std.specs.Prelude.{◌≡◌, ◌+◌, ◌<◌, ◌^◌, length};
ghost use Rattle.link.specs.Row.{with_unacked, empty_row};
ghost use Rattle.engine.specs.Sound.{row_at};
ghost use Rattle.engine.specs.Rows.{row_of};
ghost use Rattle.engine.specs.Fields.{with_row};
ghost use Rattle.words.specs.Layout.{WORDS};
ghost use Rattle.words.specs.Meaning.{state_of};
ghost use Rattle.words.specs.Encoded.{bare};

use engine::sizes::SLOT_END;
use link::LinkRow;
use links_in_place::adding::put_new;
use words::layout::WORDS;
use words::row::{put_txed_unacked_data, row_at};

// The row of a slot; past the eight, an empty one.
pub(crate) fn row_of(words: &[u64; WORDS], slot: u8) -> LinkRow
    ensures { result ≡ bare (row_of (state_of words.now) slot) }
{
    if SLOT_END <= slot {
        return LinkRow::empty();
    }
    row_at(words, slot as usize)
}

// A slot's link has so many bytes more on the way.
pub(crate) fn put_more(words: &mut [u64; WORDS], slot: u8, len: u32)
    requires { (slot < 8) × ((row_at (state_of words.old) slot).txed_unacked_data + len < 2 ^ 32) }
    ensures { state_of words.new ≡ with_row (state_of words.old) slot (with_unacked (row_at (state_of words.old) slot) ((row_at (state_of words.old) slot).txed_unacked_data + len)) }
{
    let row = row_at(words, slot as usize);
    put_txed_unacked_data(words, slot as usize, row.txed_unacked_data + len);
}

// A slot without a link.
pub(crate) fn put_empty(words: &mut [u64; WORDS], slot: u8)
    requires { slot < 8 }
    ensures { state_of words.new ≡ with_row (state_of words.old) slot empty_row }
{
    put_new(words, slot as usize, LinkRow::empty());
}
