// The packet of a number in the table, and the packets in their order.
ghost use Rattle.std.specs.Prelude.{◌≡◌, ◌%◌, ◌<◌, ◌≤◌, List};
ghost use Rattle.std.specs.List.{AllZip};
ghost use Rattle.engine.specs.Packets.{first_of, packets};
ghost use Rattle.engine.specs.declared.state.SentReliable.{SentReliable};
ghost use Rattle.engine.specs.Table.{in_table, packet_of, with_packet, with_table};
ghost use Rattle.engine.specs.Sizes.{PACKETS};

use crate::ring::{cell_at, next_cell};
use crate::sizes::{PACKET_ROUND, PACKETS};
use crate::state::{Sending, SentReliable};
use seq::Seq;

// The cell of the first packet. Whoever goes round the table from here has judged the count before: each says so in a requires and not
// by a type, since State, whose layout is fixed, is handed in unsound too, and each change of the table would build the type anew.
pub(crate) fn first_cell(tx: Sending) -> usize
    requires { tx.txed_count ≤ PACKETS }
    ensures value { result ≡ first_of tx % PACKETS }
    ensures upper_bound { result < PACKETS }
{
    let first = tx.tx_seq.sub(tx.txed_count as u32);
    cell_at(PACKET_ROUND, first)
}

// The packets that are still to come of a table, oldest first: going round, from a cell on.
#[derive(Clone, Copy)]
pub(crate) struct InOrder<'a> {
    cells: &'a [SentReliable; PACKETS],
    at: usize,
    left: usize,
    ghost inside: { at < PACKETS },
}

impl<'a> InOrder<'a> {
    ghost use Rattle.engine.specs.Packets.{packets};
    ghost use Rattle.engine.specs.InOrder.{packets_left};

    pub(crate) fn of(tx: &'a Sending) -> InOrder<'a>
        requires { tx.now.txed_count ≤ PACKETS }
        ensures { packets_left result ≡ packets tx.now }
    {
        let at = first_cell(*tx);
        InOrder {
            cells: &tx.txed_packets,
            at,
            left: tx.txed_count,
        }
    }
}

impl<'a> Iterator for InOrder<'a> {
    ghost use Rattle.std.specs.Iterator.{YieldsFirst, item_count};
    ghost use Rattle.engine.specs.InOrder.{packets_left};

    type Item = SentReliable;

    ghost next_gives = { YieldsFirst packets_left };

    ghost remaining = { item_count packets_left };

    fn next(&mut self) -> Option<SentReliable> {
        if self.left == 0 {
            return None;
        }
        let p = self.cells[self.at];
        self.at = next_cell(PACKETS, self.at);
        self.left -= 1;
        Some(p)
    }
}

// Whether the table holds the number: it is 1 to txed_count before the next one.
pub(crate) fn in_table(tx: Sending, seq: Seq) -> bool
    ensures { result ≡ in_table tx seq.0 }
{
    let back = tx.tx_seq.past(seq) as usize;
    1 <= back && back <= tx.txed_count
}

// The table with a step taken at each of its packets; the cells outside of it are not touched. It goes round by its own count, since
// no iterator of std lends an array's cells from the middle on, going round.
pub(crate) fn with_each<F: Fn(SentReliable) -> SentReliable>(tx: Sending, step: F) -> Sending
    requires count { tx.txed_count ≤ PACKETS }
    requires callable { F.IsAlwaysCallable step }
    ensures { (ps : List SentReliable) × AllZip (F.post step) (packets tx) ps × (result ≡ with_table tx ps) }
{
    let mut out = tx;
    let mut at = first_cell(tx);
    for _ in 0..tx.txed_count {
        out.txed_packets[at] = step(out.txed_packets[at]);
        at = next_cell(PACKETS, at);
    }
    out
}

// What the number's cell holds.
pub fn packet_of(tx: Sending, seq: Seq) -> SentReliable
    ensures { result ≡ packet_of tx seq.0 }
{
    tx.txed_packets[cell_at(PACKET_ROUND, seq)]
}

// The table with another packet in the number's cell.
pub(crate) fn with_packet(tx: Sending, seq: Seq, p: SentReliable) -> Sending
    ensures { result ≡ with_packet tx seq.0 p }
{
    let mut out = tx;
    out.txed_packets[cell_at(PACKET_ROUND, seq)] = p;
    out
}
