// Times; the last accepted one is 5.
use crate::set::{FLIGHT, flight};
use crate::trial::{Trial, UNSOUND};
use engine::InFlight;
use link::sizes::MAX_TIME;

pub fn kinds(t: &mut Trial) {
    for (name, time) in [
        ("the last accepted time 2^56 + 1", MAX_TIME + 1),
        ("the last accepted time 2^64 - 1", u64::MAX),
        ("the last accepted time before the others", 0),
    ] {
        t.kind(name, UNSOUND, |s, _| s.time = time);
    }
    for (name, sent, flushed) in [
        ("a send time after the last", 6, None),
        ("a send time of 2^64 - 1", u64::MAX, None),
        ("a flush time after the last", 1, Some(6)),
        ("a flush time of 2^64 - 1", 1, Some(u64::MAX)),
    ] {
        let other = InFlight {
            sent,
            flushed,
            ..FLIGHT
        };
        t.kind(name, UNSOUND, |s, _| flight(s, other));
    }
    for (name, time) in [
        ("a ping time after the last", 6),
        ("a ping time of 2^64 - 1", u64::MAX),
    ] {
        t.kind(name, UNSOUND, |s, _| {
            s.links[0].current_ping_sent = Some(time)
        });
    }
}
