// What one line does. The state and what is lent with it stay separate arguments, as the public functions of the engine take them.
ghost use Rattle.std.specs.Prelude.{◌≡◌};
ghost use Rattle.engine.specs.Answer.{outcome_told};
ghost use Rattle.replaying.specs.Taking.{recorded};
ghost use Rattle.replaying.specs.Line.{left, received, after_reliable, after_message, after_reading, after_payload, answer_of};

use crate::session::{Answered, Replay};
use crate::taking::end_frame;
use engine::State;
use msg::{LinkMsg, ReliableMsg};
use recording::{read_frame, read_payload};
use refusal::Refusal;
use seq::Seq;

fn outcome_number(outcome: Result<(), Refusal>) -> u8
    ensures { result ≡ (outcome_told outcome).number }
{
    match outcome {
        Ok(()) => 0,
        Err(e) => e.number(),
    }
}

// Receives a message over link 0.
fn receive_frame(
    s: State,
    store: &mut [u8],
    records: &mut [u64],
    msg: ReliableMsg,
    seq: Seq,
    payload: &[u8],
) -> Answered
    ensures { left result store.new records.new ≡ received (recorded s records.old) store.old msg seq payload.now }
{
    let changed = engine::receive(s, store, records, 0, msg, seq, payload);
    end_frame(outcome_number(changed.outcome), changed.state, records)
}

// A Data waits for its payload line; the other reliable messages have none.
fn answer_reliable(
    s: State,
    store: &mut [u8],
    records: &mut [u64],
    msg: ReliableMsg,
    seq: Seq,
) -> Answered
    ensures { left result store.new records.new ≡ after_reliable (recorded s records.old) store.old msg seq }
{
    match msg {
        ReliableMsg::Data => Answered {
            answer: None,
            replay: Replay {
                state: s,
                waiting: Some(seq),
            },
        },
        ReliableMsg::Consumed(_)
        | ReliableMsg::SendFinish
        | ReliableMsg::ReceiveClose
        | ReliableMsg::ReceiveFinish => receive_frame(s, store, records, msg, seq, b""),
    }
}

// Only the reliable messages reach the engine.
fn answer_message(s: State, store: &mut [u8], records: &mut [u64], msg: LinkMsg) -> Answered
    ensures { left result store.new records.new ≡ after_message (recorded s records.old) store.old msg }
{
    match ReliableMsg::from_link_msg(msg) {
        None => end_frame(0, s, records),
        Some((reliable, seq)) => answer_reliable(s, store, records, reliable, seq),
    }
}

fn answer_reading(
    s: State,
    store: &mut [u8],
    records: &mut [u64],
    reading: Result<LinkMsg, Refusal>,
) -> Answered
    ensures { left result store.new records.new ≡ after_reading (recorded s records.old) store.old reading }
{
    match reading {
        Err(e) => end_frame(e.number(), s, records),
        Ok(msg) => answer_message(s, store, records, msg),
    }
}

// A payload that is too long, or no digits, leaves its Data unreceived.
fn answer_payload(
    s: State,
    store: &mut [u8],
    records: &mut [u64],
    seq: Seq,
    line: &[u8],
) -> Answered
    ensures { left result store.new records.new ≡ after_payload (recorded s records.old) store.old seq line.now }
{
    let mut bytes = [0u8; 1024];
    let Some(n) = read_payload(line, &mut bytes) else {
        return end_frame(Refusal::Bytes.number(), s, records);
    };
    receive_frame(s, store, records, ReliableMsg::Data, seq, &bytes[..n])
}

// Answers one line, whose bytes are given without its line feed.
pub(crate) fn answer_line(r: Replay, store: &mut [u8], records: &mut [u64], line: &[u8]) -> Answered
    ensures { left result store.new records.new ≡ answer_of r store.old records.old line.now }
{
    match r.waiting {
        None => answer_reading(r.state, store, records, read_frame(line)),
        Some(seq) => answer_payload(r.state, store, records, seq, line),
    }
}
