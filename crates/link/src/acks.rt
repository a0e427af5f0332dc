// The waiting acks of a link, oldest first.
#![tactic(auto, unfolding(crate::specs::Acks::ack_queued, crate::specs::Acks::oldest_ack, crate::specs::Acks::shifted, crate::specs::Acks::ack_taken))]

ghost use Rattle.std.specs.Prelude.{◌≡◌};
ghost use Rattle.link.specs.Acks.{ack_queued, oldest_ack, ack_taken};

use crate::row::LinkRow;
use crate::sizes::ACKS;
use seq::Seq;

impl LinkRow {
    // Adds an ack; a full queue stays as it is.
    pub fn queue_ack(self, seq: Seq) -> LinkRow
        ensures { result ≡ ack_queued self seq }
    {
        let n = self.ack_count;
        if ACKS <= n {
            return self;
        }
        let mut out = self;
        out.tx_ack_queue[n] = seq;
        out.ack_count = n + 1;
        out
    }

    // The oldest waiting ack.
    pub fn oldest_ack(self) -> Option<Seq>
        ensures { result ≡ oldest_ack self }
    {
        if self.ack_count == 0 {
            return None;
        }
        Some(self.tx_ack_queue[0])
    }

    // The row without its oldest ack; with none waiting it stays as it is.
    pub fn take_ack(self) -> LinkRow
        ensures { result ≡ ack_taken self }
    {
        if self.ack_count == 0 {
            return self;
        }
        let mut out = self;
        out.tx_ack_queue.copy_within(1.., 0);
        out.ack_count -= 1;
        out
    }
}
