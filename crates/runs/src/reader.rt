// The waiting acks, the reader, and deadlines.
ghost use Rattle.std.specs.Prelude.{◌≡◌, length, get_or};
ghost use Rattle.words.specs.Meaning.{is_set};
ghost use Rattle.words.specs.Ready.{Ready};
ghost use Rattle.laws.specs.Calls.{EarliestConfirmTimeout};
ghost use Rattle.runs.specs.Asked.{It, timeout_in, reader_asked};
ghost use Rattle.runs.specs.Did.{OnWords};

use crate::answers::{Answer, no_call, tell, tell_ack, tell_due, tell_timeout};
use crate::given::slot_of;
use link::AckTimeout;
use links_in_place::{acks, reader};
use sending_in_place::deadlines;
use words::bits::is_set;
use words::layout::WORDS;

fn deadline_call(words: &[u64; WORDS], call: &[u64]) -> Answer
    requires { Ready words.now × (length call.now ≡ 8) }
    ensures { OnWords (It (EarliestConfirmTimeout (timeout_in call.now) (is_set (get_or call.now 6 0)))) words.now words.now result }
{
    let timeout = AckTimeout {
        roundtrip_factor: call[1],
        resent_factor: call[2],
        unreliable_factor: call[3],
        min: call[4],
        max: call[5],
    };
    let unreliable = is_set(call[6]);
    tell_timeout(deadlines::earliest_confirm_timeout(words, timeout, unreliable))
}

// The calls 16 to 19.
pub(crate) fn reader_call(words: &mut [u64; WORDS], call: &[u64]) -> Answer
    requires { Ready words.old × (length call.now ≡ 8) }
    ensures { OnWords (reader_asked call.now) words.old words.new result }
{
    let n = call[0];
    if n == 16 {
        let slot = slot_of(call[1]);
        return tell_ack(acks::take_ack(words, slot));
    }
    if n == 17 {
        return tell_due(reader::is_consume_ack_required(words));
    }
    if n == 18 {
        return tell(reader::close_reader(words));
    }
    if n == 19 {
        return deadline_call(words, call);
    }
    no_call()
}
