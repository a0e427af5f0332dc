// The link rows.
use crate::trial::{ACCEPTED, Trial, UNSOUND};
use link::LinkRow;
use link::sizes::MAX_TIME;

// A link with this identity, round trip and `max_ping`.
fn link(id: u64, trip: u64, max: u64) -> LinkRow {
    LinkRow::fresh(id, trip, Some(max), false, false)
}

// Of live links.
pub fn kinds(t: &mut Trial) {
    t.kind("an identity in two slots", UNSOUND, |s, _| {
        s.links[1].link_id = 11
    });
    for (name, id) in [
        ("an identity in the first slot and the last", 11),
        ("an identity in the two last slots", 13),
    ] {
        t.kind(name, UNSOUND, |s, _| s.links[7] = link(id, 50, 40));
    }
    let name = "another identity than its packets name";
    t.kind(name, UNSOUND, |s, _| s.links[0].link_id = 15);
    t.kind("no link where packets are Sent", UNSOUND, |s, _| {
        s.links[0] = LinkRow::empty()
    });
    for (name, time) in [
        ("a round trip of 2^56 + 1", MAX_TIME + 1),
        ("a round trip of 2^64 - 1", u64::MAX),
    ] {
        t.kind(name, UNSOUND, |s, _| s.links[1].roundtrip = time);
    }
    for (name, time) in [
        ("a max_ping of 2^56 + 1", MAX_TIME + 1),
        ("a max_ping of 2^64 - 1", u64::MAX),
    ] {
        t.kind(name, UNSOUND, |s, _| s.links[7] = link(14, 50, time));
    }
}

// An empty slot has no link, so that Sound asks nothing of what stands there.
pub fn empty(t: &mut Trial) {
    let row = link(14, 50, 40);
    for (name, left) in [
        (
            "an empty slot with an identity that lives",
            LinkRow { link_id: 11, ..row },
        ),
        (
            "an empty slot with a round trip of 2^56 + 1",
            link(14, MAX_TIME + 1, 40),
        ),
        (
            "an empty slot with a max_ping of 2^56 + 1",
            link(14, 50, MAX_TIME + 1),
        ),
        ("an empty slot with a ping time after the last", row.ping(6)),
        ("an empty slot with unacked bytes", row.with_unacked(1)),
        (
            "an empty slot with an ack_count of 65",
            LinkRow {
                ack_count: 65,
                ..row
            },
        ),
    ] {
        t.kind(name, ACCEPTED, |s, _| {
            s.links[6] = LinkRow {
                live: false,
                ..left
            }
        });
    }
}
