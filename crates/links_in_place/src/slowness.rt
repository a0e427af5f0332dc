// The slow links.
ghost use Rattle.std.specs.Prelude.{◌≡◌, length};
ghost use Rattle.engine.specs.Slowness.{slow_of};
ghost use Rattle.words.specs.Layout.{WORDS};
ghost use Rattle.words.specs.Meaning.{state_of};

use engine::SlowLinks;
use engine::slowness::slow_rows;
use words::layout::WORDS;
use words::row::row_at;

// None of a row's acks is asked for.
pub fn slow(words: &[u64]) -> SlowLinks
    requires { length words.now ≡ WORDS }
    ensures { result ≡ slow_of (state_of words.now).links }
{
    let Some(words) = words.as_array::<WORDS>() else {
        return SlowLinks {
            slots: [0; 8],
            count: 0,
        };
    };
    // written out, since by `from_fn` the rows were made whole, acks and all, and a call took six times as long
    slow_rows([
        row_at(words, 0),
        row_at(words, 1),
        row_at(words, 2),
        row_at(words, 3),
        row_at(words, 4),
        row_at(words, 5),
        row_at(words, 6),
        row_at(words, 7),
    ])
}
