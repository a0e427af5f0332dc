// What the records hold. The calls that are not lent them accept all of these states: they judge Sound without. The oldest ready number's
// cell is 63, that of the next expected 0, and that of the held one 1; the words are a kind, 2^8 times a length and 2^32 times a count.
use crate::good::{ROOM, SECOND};
use crate::set::{ends, turns};
use crate::trial::{ACCEPTED, BAD_RECORDS, Trial};

// There are 9 untaken bytes.
const SIZE: u32 = 9;

// The records as they are, and the sizes and numbers otherwise.
pub fn numbers(t: &mut Trial) {
    for (name, size) in [
        ("rxed_reliable_size one more", 10),
        ("rxed_reliable_size one less", 8),
        ("rxed_reliable_size 0", 0),
    ] {
        t.kind(name, BAD_RECORDS, |s, _| s.rx.rxed_reliable_size = size);
    }
    for (name, oldest, expected, end, size) in [
        ("rx_seq one more", SECOND, 1, 2, SIZE),
        ("rx_seq one less", SECOND, SECOND, 2, SIZE),
        ("rx_oldest one less", 0xFFFF_FFFE, 0, 2, SIZE),
        ("rx_end one more", SECOND, 0, 3, SIZE),
        ("rx_end one less", SECOND, 0, 1, 4),
    ] {
        t.kind(name, BAD_RECORDS, |s, _| {
            ends(s, oldest, expected, end);
            s.rx.rxed_reliable_size = size;
        });
    }
}

// A word in a cell, with the size that it makes.
fn each(t: &mut Trial, kinds: &[(&'static str, usize, u64, u32)]) {
    for kind in kinds {
        let (name, cell, word, size) = *kind;
        t.kind(name, BAD_RECORDS, |s, r| {
            s.rx.rxed_reliable_size = size;
            r[cell % ROOM] = word;
        });
    }
}

// The sums are made to fit where they can, so that it is the record alone that is wrong.
pub fn ready(t: &mut Trial) {
    each(
        t,
        &[
            ("a message held at the next expected", 0, 0x07, SIZE),
            ("a ReceiveClose that is ready", 63, 0x0B, 5),
            ("a ReceiveFinish that is ready", 63, 0x0C, 5),
            ("a Consumed that is ready", 63, 0x3_0000_0009, 5),
            ("nothing ready at rx_oldest", 63, 0, 5),
            ("ready data of 1,025 bytes", 63, 0x4_0107, 1030),
            ("ready data with a SendFinish", 63, 0x40A, SIZE),
        ],
    );
}

pub fn held(t: &mut Trial) {
    each(
        t,
        &[
            ("held data of 1,025 bytes", 1, 0x4_0107, 1029),
            ("held data of 2^24 - 1 bytes", 1, 0xFFFF_FF07, SIZE),
            ("held data with a SendFinish", 1, 0x50A, SIZE),
        ],
    );
    let name = "a held message that the size leaves out";
    t.kind(name, BAD_RECORDS, |s, r| {
        ends(s, SECOND, 0, 3);
        r[2] = 0x607;
    });
    each(t, &[("nothing held before rx_end", 1, 0, 4)]);
}

// Words that are no records. What stands for no message stands at the next expected number, where there is none.
pub fn words(t: &mut Trial) {
    each(
        t,
        &[
            ("a length with no kind", 0, 0x500, SIZE),
            ("a count with no kind", 0, 0x1_0000_0000, SIZE),
            ("kind 8", 0, 0x08, SIZE),
            ("kind 13", 0, 0x0D, SIZE),
            ("a word of 2^64 - 1", 0, u64::MAX, SIZE),
            ("kind 8 before rx_end", 1, 0x508, 4),
            ("held data with a count", 1, 0x1_0000_0507, SIZE),
            ("ready data with a count", 63, 0x1_0000_0407, SIZE),
            ("a held SendFinish with a count", 1, 0x1_0000_000A, 4),
        ],
    );
}

pub fn sound(t: &mut Trial) {
    // With twice the cells, where ffffffff is in the last.
    t.kind("128 cells", ACCEPTED, |s, r| {
        r[127] = 0x407;
        s.rx.cells = 128;
    });
    t.kind("rx_end 64 past rx_oldest", ACCEPTED, |s, r| {
        r[62] = 0x107;
        ends(s, SECOND, 0, 63);
        s.rx.rxed_reliable_size = 10;
    });
    t.kind("rx_end before a record", ACCEPTED, |s, _| {
        ends(s, SECOND, 0, 0);
        s.rx.rxed_reliable_size = 4;
    });
    // In the cells that are not in use Sound asks nothing of the words.
    for (name, even, odd) in [
        (
            "words that are no records where no cell is in use",
            0x08,
            u64::MAX,
        ),
        ("records of messages where no cell is in use", 0x307, 0x0A),
    ] {
        t.kind(name, ACCEPTED, |_, r| turns(r, 2..63, even, odd));
    }
}
