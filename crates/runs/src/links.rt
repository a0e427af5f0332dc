// The calls on links: adding one, and the plain changes of a row.
ghost use Rattle.std.specs.Prelude.{◌≡◌, length, get_or};
ghost use Rattle.seq.specs.Numbers.{seq_of};
ghost use Rattle.words.specs.Meaning.{is_set, max_ping_of};
ghost use Rattle.words.specs.Ready.{Ready};
ghost use Rattle.laws.specs.Calls.{Add, Mark};
ghost use Rattle.runs.specs.Asked.{It, numbered, link_asked};
ghost use Rattle.runs.specs.Did.{OnWords};

use crate::answers::{Answer, no_call, tell, tell_added};
use crate::given::{HALF, slot_of};
use links_in_place::{adding, links};
use sending_in_place::unconfirming;
use seq::Seq;
use words::bits::is_set;
use words::layout::WORDS;

fn add_call(words: &mut [u64; WORDS], call: &[u64]) -> Answer
    requires { Ready words.old × (length call.now ≡ 8) }
    ensures { OnWords (It (Add (get_or call.now 1 0) (get_or call.now 2 0) (max_ping_of (get_or call.now 3 0) (get_or call.now 4 0)) (is_set (get_or call.now 5 0)) (is_set (get_or call.now 6 0)))) words.old words.new result }
{
    let max = is_set(call[3]).then_some(call[4]);
    let blocked = is_set(call[5]);
    let unconfirmed = is_set(call[6]);
    tell_added(adding::add(words, call[1], call[2], max, blocked, unconfirmed))
}

fn mark_call(words: &mut [u64; WORDS], slot: u8, number: u64) -> Answer
    requires { Ready words.old }
    ensures { OnWords (numbered number (It (Mark slot (seq_of number)))) words.old words.new result }
{
    if HALF <= number {
        return no_call();
    }
    tell(links::mark(words, slot, Seq(number as u32)))
}

// The calls 1 to 8, by the numbers that a host writes (docs/RUNS.md).
pub(crate) fn links_call(words: &mut [u64; WORDS], call: &[u64]) -> Answer
    requires { Ready words.old × (length call.now ≡ 8) }
    ensures { OnWords (link_asked call.now) words.old words.new result }
{
    let n = call[0];
    if n == 1 {
        return add_call(words, call);
    }
    let slot = slot_of(call[1]);
    if n == 2 {
        return tell(unconfirming::remove(words, slot));
    }
    if n == 3 {
        return tell(links::confirm(words, slot));
    }
    if n == 4 {
        return tell(unconfirming::unconfirm(words, slot));
    }
    if n == 5 {
        return tell(links::block(words, slot, is_set(call[2])));
    }
    if n == 6 {
        return mark_call(words, slot, call[2]);
    }
    if n == 7 {
        return tell(links::ping(words, slot, call[2]));
    }
    if n == 8 {
        return tell(links::pong(words, slot, call[2]));
    }
    no_call()
}
