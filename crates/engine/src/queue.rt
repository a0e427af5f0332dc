// The resend queue, made anew from the table wherever a packet's status changed.
ghost use Rattle.std.specs.Prelude.{◌≡◌, ◌<◌, ◌≤◌, ◌++◌, length, drop};
ghost use Rattle.engine.specs.Packets.{packets, queued_of};
ghost use Rattle.engine.specs.Queue.{put_in, requeued};
ghost use Rattle.engine.specs.Sizes.{PACKETS};

use crate::packets::is_queued;
use crate::sizes::PACKETS;
use crate::state::{Sending, SentReliable};
use crate::table::InOrder;
use seq::Seq;

// The numbers gathered so far: the first count of these.
#[derive(Clone, Copy)]
struct Gathered {
    numbers: [Seq; PACKETS],
    count: usize,
}

// With a packet's number behind the others, where it is queued.
fn put(g: Gathered, p: SentReliable) -> Gathered
    requires { g.count < PACKETS }
    ensures { result ≡ put_in g p }
{
    if !is_queued(p.status) {
        return g;
    }
    let mut out = Gathered {
        count: g.count + 1,
        ..g
    };
    out.numbers[g.count] = p.seq;
    out
}

// The numbers of the ResendQueued packets, oldest first, over the old queue.
fn gather(tx: Sending) -> Gathered
    requires { tx.txed_count ≤ PACKETS }
    ensures numbers_value { result.numbers ≡ queued_of (packets tx) ++ drop (length (queued_of (packets tx))) tx.resend_queue }
    ensures count_value { result.count ≡ length (queued_of (packets tx)) }
{
    let numbers = tx.resend_queue;
    let mut g = Gathered { numbers, count: 0 };
    for p in InOrder::of(&tx) {
        g = put(g, p);
    }
    g
}

// The sending half with its queue made anew.
pub(crate) fn requeue(tx: Sending) -> Sending
    requires { tx.txed_count ≤ PACKETS }
    ensures { result ≡ requeued tx }
{
    let g = gather(tx);
    let numbers = g.numbers;
    Sending {
        resend_queue: numbers,
        resend_count: g.count,
        ..tx
    }
}
