// What a call answers: its number and three values, 0 where there is none.
ghost use Rattle.std.specs.Prelude.{◌≡◌};
ghost use Rattle.refusal.specs.Answers.{refused};
ghost use Rattle.engine.specs.Answer.{outcome_told};
ghost use Rattle.engine.specs.Deadlines.{confirm_timeout_told};
ghost use Rattle.engine.specs.HandingOut.{due_told, hand_out_told, take_ack_told};
ghost use Rattle.engine.specs.Links.{add_told};
ghost use Rattle.engine.specs.Resending.{resend_told};
ghost use Rattle.engine.specs.Sending.{send_told};
ghost use Rattle.runs.specs.Answers.{answer_of, answer, no_told};

use engine::{ConfirmTimeout, HandOut};
use msg::ReliableMsg;
use refusal::Refusal;
use seq::Seq;
use words::bits::flag;

#[derive(Clone, Copy)]
pub struct Answer {
    pub number: u64,
    pub first: u64,
    pub second: u64,
    pub third: u64,
}

fn done(first: u64, second: u64, third: u64) -> Answer
    ensures { result ≡ answer 0 first second third }
{
    Answer {
        number: 0,
        first,
        second,
        third,
    }
}

fn refused(e: Refusal) -> Answer
    ensures { result ≡ answer_of (refused e) }
{
    Answer {
        number: e.number() as u64,
        first: 0,
        second: 0,
        third: 0,
    }
}

// Words that are no call.
pub(crate) fn no_call() -> Answer
    ensures { result ≡ answer_of no_told }
{
    Answer {
        number: 20,
        first: 0,
        second: 0,
        third: 0,
    }
}

fn word(seq: Seq) -> u64
    ensures { result ≡ seq.0 }
{
    u64::from(seq.0)
}

pub(crate) fn tell(outcome: Result<(), Refusal>) -> Answer
    ensures { result ≡ answer_of (outcome_told outcome) }
{
    match outcome {
        Ok(()) => done(0, 0, 0),
        Err(e) => refused(e),
    }
}

// The slot.
pub(crate) fn tell_added(answer: Result<u8, Refusal>) -> Answer
    ensures { result ≡ answer_of (add_told answer) }
{
    match answer {
        Err(e) => refused(e),
        Ok(slot) => done(slot as u64, 0, 0),
    }
}

// The number.
pub(crate) fn tell_sent(answer: Result<Seq, Refusal>) -> Answer
    ensures { result ≡ answer_of (send_told answer) }
{
    match answer {
        Err(e) => refused(e),
        Ok(seq) => done(word(seq), 0, 0),
    }
}

// The number.
pub(crate) fn tell_ack(answer: Result<Seq, Refusal>) -> Answer
    ensures { result ≡ answer_of (take_ack_told answer) }
{
    match answer {
        Err(e) => refused(e),
        Ok(seq) => done(word(seq), 0, 0),
    }
}

// Kind, count and length.
pub(crate) fn tell_resent(answer: Result<(ReliableMsg, u32), Refusal>) -> Answer
    ensures { result ≡ answer_of (resend_told answer) }
{
    match answer {
        Err(e) => refused(e),
        Ok((msg, len)) => done(msg.kind() as u64, msg.count() as u64, len as u64),
    }
}

// Kind, number and length.
pub(crate) fn tell_message(answer: HandOut) -> Answer
    ensures { result ≡ answer_of (hand_out_told answer) }
{
    match answer {
        Err(e) => refused(e),
        Ok((msg, seq, len)) => done(msg.kind() as u64, word(seq), len as u64),
    }
}

// 1 or 0.
pub(crate) fn tell_due(answer: Result<bool, Refusal>) -> Answer
    ensures { result ≡ answer_of (due_told answer) }
{
    match answer {
        Err(e) => refused(e),
        Ok(due) => done(flag(due), 0, 0),
    }
}

// Slot, flushed or not, and the deadline; nothing where no packet is named.
pub(crate) fn tell_timeout(answer: ConfirmTimeout) -> Answer
    ensures { result ≡ answer_of (confirm_timeout_told answer) }
{
    match answer {
        Err(e) => refused(e),
        Ok(named) => match named {
            None => done(0, 0, 0),
            Some((slot, flushed, at)) => done(slot as u64, flag(flushed), at),
        },
    }
}
