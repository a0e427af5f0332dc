// The resend queue, made anew from the table wherever a packet's status changed.
ghost use Rattle.std.specs.Prelude.{◌≡◌, ◌++◌, ◌≤◌, ◌<◌, length, drop};
ghost use Rattle.engine.specs.Sizes.{PACKETS};
ghost use Rattle.engine.specs.Fields.{with_tx, with_queue};
ghost use Rattle.engine.specs.Packets.{packets, queued_of};
ghost use Rattle.engine.specs.Queue.{requeued};
ghost use Rattle.words.specs.Layout.{WORDS};
ghost use Rattle.words.specs.Meaning.{state_of};
ghost use Rattle.words.specs.Encoded.{numbers_of};
ghost use Rattle.sending_in_place.specs.Requeue.{count_put, numbers_put};

use crate::table::first_cell;
use engine::packets::is_queued;
use engine::ring::next_cell;
use engine::{PACKETS, SentReliable};
use words::layout::WORDS;
use words::packet::packet_at;
use words::queues::put_queued;
use words::sending::{SendingNumbers, put_tx, tx_of};

// A packet's number behind the others, where it is queued. Answers how many there are now.
fn put_number(words: &mut [u64; WORDS], count: usize, p: SentReliable) -> usize
    requires { count < PACKETS }
    ensures value { result ≡ count_put (state_of words.old).tx.resend_queue count p }
    ensures words_after { state_of words.new ≡ with_tx (state_of words.old) (with_queue (state_of words.old).tx (numbers_put (state_of words.old).tx.resend_queue count p) (state_of words.old).tx.resend_count) }
{
    let status = p.status;
    let seq = p.seq;
    if !is_queued(status) {
        return count;
    }
    put_queued(words, count, seq);
    count + 1
}

// The numbers of the ResendQueued packets, oldest first, over the old queue. Answers how many they are.
fn gather(words: &mut [u64; WORDS], tx: SendingNumbers) -> usize
    requires { (tx ≡ numbers_of (state_of words.old).tx) × ((state_of words.old).tx.txed_count ≤ PACKETS) }
    ensures value { result ≡ length (queued_of (packets (state_of words.old).tx)) }
    ensures words_after { state_of words.new ≡ with_tx (state_of words.old) (with_queue (state_of words.old).tx (queued_of (packets (state_of words.old).tx) ++ drop (length (queued_of (packets (state_of words.old).tx))) (state_of words.old).tx.resend_queue) (state_of words.old).tx.resend_count) }
{
    let mut count: usize = 0;
    let mut at = first_cell(tx);
    for _ in 0..tx.txed_count {
        let p = packet_at(words, at);
        count = put_number(words, count, p);
        at = next_cell(PACKETS, at);
    }
    count
}

// The queue made anew.
pub(crate) fn requeue(words: &mut [u64; WORDS])
    requires { (state_of words.old).tx.txed_count ≤ PACKETS }
    ensures { state_of words.new ≡ with_tx (state_of words.old) (requeued (state_of words.old).tx) }
{
    let tx = tx_of(words);
    let resend_count = gather(words, tx);
    put_tx(words, SendingNumbers { resend_count, ..tx });
}
