// The limit mark: what setting it, an ack and a resend do to it.
#![tactic(auto, unfolding(crate::specs::Limit::marked_row, crate::specs::Limit::mark_acked_as, crate::specs::Limit::mark_resent_as))]

ghost use Rattle.std.specs.Prelude.{◌≡◌};
ghost use Rattle.link.specs.Limit.{marked_row, mark_acked, mark_resent};

use crate::row::LinkRow;
use seq::Seq;

impl LinkRow {
    // Sets the limit mark.
    pub fn mark(self, limit: Option<Seq>) -> LinkRow
        ensures { result ≡ marked_row self limit }
    {
        LinkRow {
            limit_increased: limit,
            ..self
        }
    }

    // What an ack of a number does to the mark: one that is far from the number is cleared too.
    pub fn mark_acked(self, received: Seq) -> LinkRow
        ensures { result ≡ mark_acked self received.0 }
    {
        match self.limit_increased {
            None => self,
            Some(mark) => {
                if received.is_before(mark) {
                    return LinkRow {
                        zero_estimate: true,
                        ..self
                    };
                }
                self.mark(None)
            }
        }
    }

    // What a resend of a number over this link does to the mark: one that is far from the number is kept.
    pub fn mark_resent(self, seq: Seq) -> LinkRow
        ensures { result ≡ mark_resent self seq.0 }
    {
        match self.limit_increased {
            None => self,
            Some(mark) => {
                if seq.is_before(mark) {
                    return self.mark(Some(seq));
                }
                self
            }
        }
    }
}
