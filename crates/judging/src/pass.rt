// One pass over the packets in use, which ends at the first that is not well.
ghost use Rattle.std.specs.Prelude.{◌≡◌, length};
ghost use Rattle.seq.specs.Numbers.{seq_of};
ghost use Rattle.engine.specs.Packets.{first_of};
ghost use Rattle.engine.specs.Roster.{roster_of};
ghost use Rattle.engine.specs.Tally.{tally_of};
ghost use Rattle.words.specs.Layout.{WORDS};
ghost use Rattle.words.specs.Meaning.{state_of};
ghost use Rattle.judging.specs.Weights.{clipped};

use crate::packet::{Weight, weight_at};
use engine::SLOTS;
use engine::packets::Tally;
use engine::sizes::PACKET_ROUND;
use seq::Seq;
use words::layout::WORDS;

// The tally of the packets in use, `count` of them from the number `first` on. The sums stand apart while the pass runs, so that only those by
// slot are kept in memory. None where a packet is not well.
pub(crate) fn tallied(words: &[u64; WORDS], count: usize, first: Seq, time: u64) -> Option<Tally>
    requires { (count ≡ (state_of words.now).tx.txed_count) × (first ≡ seq_of (first_of (state_of words.now).tx)) × (time ≡ (state_of words.now).time) }
    ensures { result ≡ clipped (tally_of (state_of words.now).tx (roster_of (state_of words.now).links) (state_of words.now).time) }
{
    let mut on = [0u32; SLOTS];
    let mut unacked: u32 = 0;
    let mut unconsumable: u32 = 0;
    let mut queued: usize = 0;
    let mut n = first;
    for _ in 0..count {
        let at = (n.0 % PACKET_ROUND) as usize;
        let w = weight_at(words, at, n, queued, time)?;
        match w {
            Weight::Flying(slot, len) => {
                let j = slot % SLOTS;
                on[j] = std::num::wrapping_add_u32(on[j], len);
                unacked = std::num::wrapping_add_u32(unacked, len);
            }
            Weight::Settled(len) => {
                unconsumable = std::num::wrapping_add_u32(unconsumable, len);
            }
            Weight::Waiting(len) => {
                unacked = std::num::wrapping_add_u32(unacked, len);
                queued = std::num::wrapping_add_usize(queued, 1);
            }
        }
        n = n.add(1);
    }
    Some(Tally {
        ok: true,
        on,
        unacked,
        unconsumable,
        queued,
    })
}
