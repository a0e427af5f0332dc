// Resending a queued packet over another link.
ghost use Rattle.std.specs.Prelude.{◌≡◌};
ghost use Rattle.engine.specs.Table.{looked_at};
ghost use Rattle.engine.specs.Resending.{resend_verdict, resent_state, resend_of, resend_told};
ghost use Rattle.words.specs.Meaning.{state_of};
ghost use Rattle.words.specs.Ready.{Ready, Left};

use crate::gates::timed_verdict;
use crate::queue::requeue;
use crate::rows::row_of;
use crate::table::{cell_of, in_table};
use engine::packets::is_queued;
use engine::resending::last_link;
use engine::{InFlight, SentReliable, SentReliableStatus};
use msg::ReliableMsg;
use refusal::{Refusal, refuse_unless};
use seq::Seq;
use words::clock::put_time;
use words::layout::WORDS;
use words::packet::{packet_at, put_packet};
use words::row::{put_row, row_at};
use words::sending::tx_of;

fn resend_verdict(words: &[u64; WORDS], slot: u8, time: u64, seq: Seq) -> Result<(), Refusal>
    requires { Ready words.now }
    ensures { result ≡ resend_verdict (state_of words.now) slot time seq.0 }
{
    timed_verdict(words, slot, time)?;
    let status = packet_at(words, cell_of(seq)).status;
    let queued = in_table(tx_of(words), seq) && is_queued(status);
    refuse_unless(queued, Refusal::NotQueued)?;
    let other = last_link(status) != row_of(words, slot).link_id;
    refuse_unless(other, Refusal::SameIdentity)
}

fn put_resent(words: &mut [u64; WORDS], slot: u8, time: u64, seq: Seq, p: SentReliable)
    requires { Ready words.old × (resend_verdict (state_of words.old) slot time seq.0 ≡ Ok tt) × (p ≡ looked_at (state_of words.old).tx seq.0) }
    ensures { state_of words.new ≡ resent_state (state_of words.old) slot time seq.0 }
{
    let row = row_at(words, slot as usize);
    let flight = InFlight::new(time, slot, row.link_id, true);
    let next = p.with_status(SentReliableStatus::Sent(flight));
    let marked = row.mark_resent(seq);
    let grown = marked.with_unacked(row.txed_unacked_data + p.len);
    put_row(words, slot as usize, grown);
    put_packet(words, cell_of(seq), next);
    requeue(words);
    put_time(words, time);
}

// Puts a queued packet on another link.
pub fn resend(
    words: &mut [u64; WORDS],
    slot: u8,
    time: u64,
    seq: Seq,
) -> Result<(ReliableMsg, u32), Refusal>
    requires { Ready words.old }
    ensures value { result ≡ (resend_of (state_of words.old) slot time seq.0).answer }
    ensures words_after { state_of words.new ≡ (resend_of (state_of words.old) slot time seq.0).state }
    ensures left { Left (resend_told result).number words.old words.new }
{
    resend_verdict(words, slot, time, seq)?;
    let p = packet_at(words, cell_of(seq));
    let msg = p.msg;
    put_resent(words, slot, time, seq, p);
    Ok((msg, p.len))
}
