// Taking an ack.
ghost use Rattle.std.specs.Prelude.{◌≡◌, ◌-◌, ◌<◌, length};
ghost use Rattle.link.specs.Acks.{ack_taken};
ghost use Rattle.link.specs.Fields.{with_acks};
ghost use Rattle.engine.specs.Fields.{with_row};
ghost use Rattle.engine.specs.HandingOut.{take_ack_of, take_ack_told};
ghost use Rattle.engine.specs.Sound.{row_at};
ghost use Rattle.words.specs.Encoded.{bare};
ghost use Rattle.words.specs.Layout.{WORDS};
ghost use Rattle.words.specs.Meaning.{state_of};
ghost use Rattle.words.specs.Ready.{Ready, Left};

use link::LinkRow;
use refusal::{Refusal, refuse_unless};
use seq::Seq;
use words::gates::slot_ok;
use words::layout::WORDS;
use words::queues::{first_ack, shift_acks};
use words::row::{put_row, row_at};

// A row with one ack less.
fn fewer(row: LinkRow) -> LinkRow
    requires { 0 < row.ack_count }
    ensures { result ≡ with_acks row row.tx_ack_queue (row.ack_count - 1) }
{
    LinkRow {
        ack_count: row.ack_count - 1,
        ..row
    }
}

// A slot's row, which is not read twice, loses its oldest ack.
fn drop_ack(words: &mut [u64; WORDS], slot: usize, row: LinkRow)
    requires { (slot < 8) × (row ≡ bare (row_at (state_of words.old) slot)) × (0 < row.ack_count) }
    ensures { state_of words.new ≡ with_row (state_of words.old) slot (ack_taken (row_at (state_of words.old) slot)) }
{
    shift_acks(words, slot);
    put_row(words, slot, fewer(row));
}

// Takes the link's oldest ack.
pub fn take_ack(words: &mut [u64; WORDS], slot: u8) -> Result<Seq, Refusal>
    requires { Ready words.old }
    ensures value { result ≡ (take_ack_of (state_of words.old) slot).answer }
    ensures words_after { state_of words.new ≡ (take_ack_of (state_of words.old) slot).state }
    ensures left { Left (take_ack_told result).number words.old words.new }
{
    refuse_unless(slot_ok(words, slot), Refusal::Slot)?;
    let j = usize::from(slot);
    let row = row_at(words, j);
    refuse_unless(0 < row.ack_count, Refusal::Nothing)?;
    let seq = first_ack(words, j);
    drop_ack(words, j, row);
    Ok(seq)
}
