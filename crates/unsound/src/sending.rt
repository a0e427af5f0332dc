// The packet table.
use crate::good::{FIRST, SECOND};
use crate::set::{FLIGHT, first, flight, sums};
use crate::trial::{ACCEPTED, Trial, UNSOUND};
use engine::{InFlight, SentReliableStatus};
use msg::ReliableMsg;
use seq::Seq;

// Not consecutive, or not up to the next number, which is 3.
pub fn numbers(t: &mut Trial) {
    for (name, n) in [
        ("the next number one more", 4),
        ("the next number one less", 2),
        ("the next number 64 more", 67),
        ("the next number 2^31 more", 0x8000_0003),
    ] {
        t.kind(name, UNSOUND, |s, _| s.tx.tx_seq = Seq(n));
    }
    for (name, n) in [
        ("a packet more than there are", 6),
        ("a packet less than there are", 4),
        ("no packet where there are some", 0),
    ] {
        t.kind(name, UNSOUND, |s, _| s.tx.txed_count = n);
    }
    let status = SentReliableStatus::Sent(FLIGHT);
    for (name, n) in [
        ("the first number one more", SECOND),
        ("the first number 64 more", 62),
    ] {
        t.kind(name, UNSOUND, |s, _| {
            first(s, n, ReliableMsg::Data, 3, status)
        });
    }
}

// The first packet as it is, but that it was resent: Sound asks nothing of that.
pub fn resent(t: &mut Trial) {
    let again = InFlight {
        flushed: Some(4),
        resent: true,
        ..FLIGHT
    };
    t.kind("the first packet resent", ACCEPTED, |s, _| flight(s, again));
}

// The sums are made to fit, so that it is the packet alone that is wrong.
pub fn packets(t: &mut Trial) {
    let data = ReliableMsg::Data;
    let sent = SentReliableStatus::Sent(FLIGHT);
    t.kind("the first packet Received", UNSOUND, |s, _| {
        first(s, FIRST, data, 3, SentReliableStatus::Received);
        sums(s, 13, 8, 4);
    });
    t.kind("Sent over an empty slot", UNSOUND, |s, _| {
        flight(s, InFlight { slot: 3, ..FLIGHT });
        sums(s, 16, 5, 4);
        s.links[3].txed_unacked_data = 3;
    });
    for (name, other) in [
        ("Sent over slot 8", InFlight { slot: 8, ..FLIGHT }),
        (
            "Sent over slot 255",
            InFlight {
                slot: 255,
                ..FLIGHT
            },
        ),
        (
            "Sent over another identity",
            InFlight { link: 12, ..FLIGHT },
        ),
    ] {
        t.kind(name, UNSOUND, |s, _| flight(s, other));
    }
    t.kind("Sent data of 1,025 bytes", UNSOUND, |s, _| {
        first(s, FIRST, data, 1025, sent);
        sums(s, 1038, 5, 1029);
    });
    t.kind("Sent data of 2^32 - 1 bytes", UNSOUND, |s, _| {
        first(s, FIRST, data, u32::MAX, sent);
        sums(s, 12, 5, 3);
    });
    t.kind("Sent data with a ReceiveClose", UNSOUND, |s, _| {
        first(s, FIRST, ReliableMsg::ReceiveClose, 3, sent)
    });
}
