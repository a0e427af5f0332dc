// The row itself, and the plain changes of it.
#![tactic(auto, unfolding(crate::specs::Row::empty_row, crate::specs::Row::fresh_row, crate::specs::Row::confirmed, crate::specs::Row::unconfirmed_row, crate::specs::Row::blocked_row, crate::specs::Row::with_unacked))]

ghost use Rattle.std.specs.Prelude.{◌≡◌};
ghost use Rattle.link.specs.Row.{empty_row, fresh_row, confirmed, unconfirmed_row, blocked_row, with_unacked};

use crate::sizes::ACKS;
use seq::Seq;

// A link slot. Times are nanoseconds.
#[derive(Clone, Copy, PartialEq, Eq)]
pub struct LinkRow {
    // whether the slot holds a link
    pub live: bool,
    // the link's identity
    pub link_id: u64,
    // the round trip as last estimated
    pub roundtrip: u64,
    // the longest round trip that the link may have, where there is one
    pub max_ping: Option<u64>,
    pub blocked: bool,
    // not tested yet, or an acknowledgement timed out
    pub unconfirmed: bool,
    // the next acknowledgement replaces the round trip (the original's estimates are Some(0))
    pub zero_estimate: bool,
    // the limit mark: the number at which the link's send limit was last increased
    pub limit_increased: Option<Seq>,
    // when the ping was sent that has no answer yet
    pub current_ping_sent: Option<u64>,
    // the data bytes Sent over this link and not acknowledged
    pub txed_unacked_data: u32,
    // the waiting acks, oldest first: the first ack_count of these (an array with its length beside it, since memory is fixed here)
    pub tx_ack_queue: [Seq; ACKS],
    pub ack_count: usize,
}

impl LinkRow {
    // A slot without a link.
    pub fn empty() -> LinkRow
        ensures { result ≡ empty_row }
    {
        LinkRow {
            live: false,
            link_id: 0,
            roundtrip: 0,
            max_ping: None,
            blocked: false,
            unconfirmed: false,
            zero_estimate: false,
            limit_increased: None,
            current_ping_sent: None,
            txed_unacked_data: 0,
            tx_ack_queue: [Seq::ZERO; ACKS],
            ack_count: 0,
        }
    }

    // A link that was just added.
    pub fn fresh(
        link_id: u64,
        roundtrip: u64,
        max_ping: Option<u64>,
        blocked: bool,
        unconfirmed: bool,
    ) -> LinkRow
        ensures { result ≡ fresh_row link_id roundtrip max_ping blocked unconfirmed }
    {
        LinkRow {
            live: true,
            link_id,
            roundtrip,
            max_ping,
            blocked,
            unconfirmed,
            ..LinkRow::empty()
        }
    }

    pub fn confirm(self) -> LinkRow
        ensures { result ≡ confirmed self }
    {
        LinkRow {
            unconfirmed: false,
            ..self
        }
    }

    // The row's part of unconfirming: none of its packets stays Sent.
    pub fn unconfirm(self) -> LinkRow
        ensures { result ≡ unconfirmed_row self }
    {
        LinkRow {
            unconfirmed: true,
            limit_increased: None,
            txed_unacked_data: 0,
            ..self
        }
    }

    pub fn block(self, blocked: bool) -> LinkRow
        ensures { result ≡ blocked_row self blocked }
    {
        LinkRow { blocked, ..self }
    }

    pub fn with_unacked(self, bytes: u32) -> LinkRow
        ensures { result ≡ with_unacked self bytes }
    {
        LinkRow {
            txed_unacked_data: bytes,
            ..self
        }
    }
}
