// The receiving half, but for what the records hold.
use crate::good::{BUFFER, FIRST, SECOND};
use crate::set::{cells, ends};
use crate::trial::{ACCEPTED, TOO_LARGE, Trial, UNSOUND};
use engine::State;
use seq::Seq;

// With nothing ready and nothing held: no cell is in use.
fn drain(s: &mut State) {
    ends(s, 0, 0, 0);
    s.rx.rxed_reliable_size = 0;
}

// There are 9 untaken bytes, and 64 cells.
pub fn sizes(t: &mut Trial) {
    for (name, size) in [
        ("rxed_reliable_size 65,537", 65_537),
        ("rxed_reliable_size 2^32 - 1", u32::MAX),
    ] {
        t.kind(name, UNSOUND, |s, _| s.rx.rxed_reliable_size = size);
    }
    t.kind("recv_buffer 0", UNSOUND, |s, _| s.rx.recv_buffer = 0);
    t.kind("recv_buffer 0 with nothing untaken", UNSOUND, |s, _| {
        drain(s);
        s.rx.recv_buffer = 0;
    });
    for (name, buffer) in [
        ("recv_buffer below the untaken data", 8),
        ("recv_buffer 65,537", 65_537),
        ("recv_buffer 2^32 - 1", u32::MAX),
    ] {
        t.kind(name, UNSOUND, |s, _| s.rx.recv_buffer = buffer);
    }
    t.kind("recv_buffer 131,073 with 128 cells", UNSOUND, |s, _| {
        drain(s);
        cells(s, 128, 131_073);
    });
}

// The oldest ready number is ffffffff, the next expected 0 and the end 2. 65 past the oldest its own cell is in use again, and the size
// has its message twice.
pub fn ends_of(t: &mut Trial) {
    let half = 0x7FFF_FFFF;
    for (name, oldest, expected, end) in [
        ("rx_seq 65 past rx_oldest", SECOND, 64, 2),
        ("rx_seq 2^31 past rx_oldest", SECOND, half, 2),
        ("rx_seq before rx_oldest", SECOND, FIRST, 2),
        ("rx_seq past rx_end", SECOND, 3, 2),
        ("rx_oldest 65 before rx_seq", 0xFFFF_FFBF, 0, 2),
        ("rx_oldest 2^31 before rx_seq", 0x8000_0000, 0, 2),
        ("rx_oldest past rx_seq", 1, 0, 2),
        ("rx_end before rx_seq", SECOND, 0, SECOND),
        ("rx_end before rx_oldest", SECOND, 0, FIRST),
    ] {
        t.kind(name, UNSOUND, |s, _| ends(s, oldest, expected, end));
    }
    t.kind("rx_end 65 past rx_oldest", UNSOUND, |s, _| {
        ends(s, SECOND, 0, 64);
        s.rx.rxed_reliable_size = 13;
    });
    t.kind("rx_end 2^31 past rx_oldest", UNSOUND, |s, _| {
        ends(s, SECOND, 0, half)
    });
}

// Cell counts that there are none of, where no cell is in use and the buffer fits; there is none that fits no cells.
pub fn counts(t: &mut Trial) {
    for (name, n, buffer) in [
        ("no cells", 0, 1),
        ("1 cell", 1, 1024),
        ("32 cells", 32, 32_768),
        ("63 cells", 63, 64_512),
        ("65 cells", 65, BUFFER),
        ("96 cells", 96, BUFFER),
    ] {
        t.kind(name, UNSOUND, |s, _| {
            drain(s);
            cells(s, n, buffer);
        });
    }
}

// Those that no store is large enough for.
pub fn too_many(t: &mut Trial) {
    for (name, n) in [("131,072 cells", 131_072), ("2^32 - 1 cells", u32::MAX)] {
        t.kind(name, TOO_LARGE, |s, _| {
            drain(s);
            s.rx.cells = n;
        });
    }
}

// What comes with a refusal of the fresh state.
pub fn refused(t: &mut Trial) {
    let mut records = [0u64; 64];
    let refused = engine::fresh(Seq(FIRST), 0, 64, &mut records).state;
    t.kind("the state of a refused fresh", UNSOUND, |s, _| *s = refused);
}

// Sound asks nothing of the reader.
pub fn closed(t: &mut Trial) {
    t.kind("the reader closed", ACCEPTED, |s, _| s.read_open = false);
}
