// A run of calls under one judgement.
ghost use Rattle.std.specs.Prelude.{◌≡◌, cond, length};
ghost use Rattle.words.specs.Ready.{Left};
ghost use Rattle.runs.specs.Runs.{readyb, room_for, run_of, ran};

// Does a list of calls, one after another, on words that are judged once: eight words a call, four an answer (docs/RUNS.md). As many are done as have their words and room for
// their answer. 1 where the words are not sound, or the records with them where they are as many as the cells; then nothing is done.
#[unsafe(no_mangle)]
pub extern "C" fn fk_run(
    words: &mut [u64],
    sent: &mut [u8],
    received: &mut [u8],
    records: &mut [u64],
    calls: &[u64],
    bytes: &[u8],
    answers: &mut [u64],
) -> u64
    ensures value { result ≡ cond (readyb words.old records.old) 0 1 }
    ensures answers_after { run_of words.new sent.new received.new records.new answers.new ≡ cond (readyb words.old records.old) (ran (room_for (length calls.now) (length answers.old)) calls.now bytes.now (run_of words.old sent.old received.old records.old answers.old)) (run_of words.old sent.old received.old records.old answers.old) }
    ensures left { Left result words.old words.new }
{
    runs::running::run(words, sent, received, records, calls, bytes, answers)
}
