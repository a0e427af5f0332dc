// Any call, by its number.
ghost use Rattle.std.specs.Prelude.{◌≡◌, length};
ghost use Rattle.receiving_in_place.specs.ReadyWith.{ReadyWith};
ghost use Rattle.runs.specs.Asked.{asked_of};
ghost use Rattle.runs.specs.Did.{Did};

use crate::answers::Answer;
use crate::links::links_call;
use crate::reader::reader_call;
use crate::receiving::receiving_call;
use crate::sending::sending_call;
use words::layout::WORDS;

// One call on words that are known to be sound: nothing is judged.
pub(crate) fn one_call(
    words: &mut [u64; WORDS],
    sent: &mut [u8],
    received: &mut [u8],
    records: &mut [u64],
    call: &[u64],
    bytes: &[u8],
) -> Answer
    requires { ReadyWith words.old records.old × (length call.now ≡ 8) }
    ensures { Did (asked_of call.now bytes.now) words.old sent.old received.old records.old words.new sent.new received.new records.new result }
{
    let n = call[0];
    if n <= 12 {
        if n <= 8 {
            return links_call(words, call);
        }
        return sending_call(words, sent, call, bytes);
    }
    if n <= 15 {
        return receiving_call(words, received, records, call, bytes);
    }
    reader_call(words, call)
}
