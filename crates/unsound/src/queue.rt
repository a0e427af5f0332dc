// The resend queue, which has the numbers 0 and 2.
use crate::trial::{Trial, UNSOUND};
use seq::Seq;

pub fn kinds(t: &mut Trial) {
    for (name, first, second, count) in [
        ("the queue newest first", 2, 0, 2),
        ("a number queued twice", 0, 0, 2),
        ("a Sent number in the queue", 0, 1, 2),
        ("a number of no packet in the queue", 0, 66, 2),
        ("a number less in the queue", 0, 2, 1),
        ("a number more in the queue", 0, 2, 3),
        ("an empty queue", 0, 2, 0),
    ] {
        t.kind(name, UNSOUND, |s, _| {
            s.tx.resend_queue[0] = Seq(first);
            s.tx.resend_queue[1] = Seq(second);
            s.tx.resend_count = count;
        });
    }
}
