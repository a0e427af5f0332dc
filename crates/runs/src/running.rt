// A list of calls, one after another, under one judgement.
ghost use Rattle.std.specs.Prelude.{◌≡◌, cond, ◌+◌, ◌*◌, ◌≤◌, length};
ghost use Rattle.words.specs.Ready.{Left, Words64};
ghost use Rattle.receiving_in_place.specs.ReadyWith.{ReadyWith};
ghost use Rattle.runs.specs.Runs.{run_of, put, ran, room_for, readyb};

use crate::answers::Answer;
use crate::calls::one_call;
use judging::{is_sound, is_sound_with};
use words::layout::WORDS;
use words::receiving::rx_of;

// The words of a call, and of an answer.
const CALL: usize = 8;

const ANSWER: usize = 4;

// A run of words that is not sound.
const UNSOUND: u64 = 1;

fn put_answer(answers: &mut [u64], at: usize, answer: Answer)
    requires { at + 4 ≤ length answers.old }
    ensures { answers.new ≡ put answers.old at answer }
{
    answers[at] = answer.number;
    answers[at + 1] = answer.first;
    answers[at + 2] = answer.second;
    answers[at + 3] = answer.third;
}

// Whether the words are sound, and the records with them where they are as many as the cells.
fn is_ready(words: &[u64; WORDS], records: &[u64]) -> bool
    ensures { result ≡ readyb words.now records.now }
{
    let rx = rx_of(words);
    if records.len() == rx.cells as usize {
        return is_sound_with(words, records);
    }
    is_sound(words)
}

fn room_for(calls: usize, answers: usize) -> usize
    ensures { result ≡ room_for calls answers }
{
    let asked = calls / CALL;
    let room = answers / ANSWER;
    if asked <= room { asked } else { room }
}

// Every word is one of 64 bits: what the type says of an array that was lent, told of one that a call has changed.
fn each_fits(words: &[u64; WORDS])
    ensures { Words64 words.now }
{
    let _first = words[0];
}

// So many calls, each with its answer.
fn do_calls(
    words: &mut [u64; WORDS],
    sent: &mut [u8],
    received: &mut [u8],
    records: &mut [u64],
    calls: &[u64],
    bytes: &[u8],
    answers: &mut [u64],
    count: usize,
)
    requires { ReadyWith words.old records.old × ((count * 8 ≤ length calls.now) × (count * 4 ≤ length answers.old)) }
    ensures { run_of words.new sent.new received.new records.new answers.new ≡ ran count calls.now bytes.now (run_of words.old sent.old received.old records.old answers.old) }
{
    for i in 0..count {
        let start = i * CALL;
        let end = start + CALL;
        let answer = one_call(words, sent, received, records, &calls[start..end], bytes);
        each_fits(words);
        put_answer(answers, i * ANSWER, answer);
    }
}

// Does the calls, as many as have both their words and room for their answer, and answers 0; or 1 where the words are not sound, and changes nothing.
pub fn run(
    words: &mut [u64],
    sent: &mut [u8],
    received: &mut [u8],
    records: &mut [u64],
    calls: &[u64],
    bytes: &[u8],
    answers: &mut [u64],
) -> u64
    ensures value { result ≡ cond (readyb words.old records.old) 0 1 }
    ensures answers_after { run_of words.new sent.new received.new records.new answers.new ≡ cond (readyb words.old records.old) (ran (room_for (length calls.now) (length answers.old)) calls.now bytes.now (run_of words.old sent.old received.old records.old answers.old)) (run_of words.old sent.old received.old records.old answers.old) }
    ensures left { Left result words.old words.new }
{
    let Some(words) = words.as_mut_array::<WORDS>() else {
        return UNSOUND;
    };
    if !is_ready(words, records) {
        return UNSOUND;
    }
    let count = room_for(calls.len(), answers.len());
    do_calls(words, sent, received, records, calls, bytes, answers, count);
    0
}
