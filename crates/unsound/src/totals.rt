// Counts and sums.
use crate::set::sums;
use crate::trial::{Trial, UNSOUND};

// Numbers that no table has as a count.
const PAST_U32: usize = 0x1_0000_0000;

// Those that are past a table's size, at the count itself past 2^32 too, where the low bits are right.
pub fn counts(t: &mut Trial) {
    for (name, n) in [
        ("txed_count 65", 65),
        ("txed_count 2^32", PAST_U32),
        ("txed_count 2^32 + 5", PAST_U32 + 5),
        ("txed_count 2^32 + 64", PAST_U32 + 64),
        ("txed_count 2^64 - 1", usize::MAX),
    ] {
        t.kind(name, UNSOUND, |s, _| s.tx.txed_count = n);
    }
    for (name, n) in [
        ("resend_count 65", 65),
        ("resend_count 2^32", PAST_U32),
        ("resend_count 2^32 + 2", PAST_U32 + 2),
        ("resend_count 2^32 + 64", PAST_U32 + 64),
        ("resend_count 2^64 - 1", usize::MAX),
    ] {
        t.kind(name, UNSOUND, |s, _| s.tx.resend_count = n);
    }
    for (name, n) in [
        ("ack_count 65", 65),
        ("ack_count 2^32", PAST_U32),
        ("ack_count 2^32 + 3", PAST_U32 + 3),
        ("ack_count 2^32 + 64", PAST_U32 + 64),
        ("ack_count 2^64 - 1", usize::MAX),
    ] {
        t.kind(name, UNSOUND, |s, _| s.links[0].ack_count = n);
    }
}

// The good state's are 16, 5 and 7.
pub fn all_sums(t: &mut Trial) {
    for (name, unacked, unconsumable, on) in [
        ("txed_unacked one more", 17, 5, 7),
        ("txed_unacked one less", 15, 5, 7),
        ("txed_unacked 0", 0, 5, 7),
        ("txed_unacked 2^32 - 1", u32::MAX, 5, 7),
        ("txed_unconsumable one more", 16, 6, 7),
        ("txed_unconsumable one less", 16, 4, 7),
        ("txed_unconsumable 0", 16, 0, 7),
        ("txed_unconsumable 2^32 - 1", 16, u32::MAX, 7),
        ("txed_unacked_data one more", 16, 5, 8),
        ("txed_unacked_data one less", 16, 5, 6),
        ("txed_unacked_data 2^32 - 1", 16, 5, u32::MAX),
    ] {
        t.kind(name, UNSOUND, |s, _| sums(s, unacked, unconsumable, on));
    }
    let name = "txed_unacked_data of a link with no packet";
    t.kind(name, UNSOUND, |s, _| s.links[1].txed_unacked_data = 1);
}
