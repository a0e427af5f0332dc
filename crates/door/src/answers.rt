// What a host is told: the number is answered, and the values are written over the first of three lent words. A refusal has none, and writes nothing.
ghost use Rattle.std.specs.Prelude.{◌≡◌, ℕ, set, Ok, Err};
ghost use Rattle.std.proofs.lemmas.List.Edits.{sets};
ghost use Rattle.refusal.specs.declared.Refusal.{Refusal};
ghost use Rattle.refusal.specs.Refusals.{number_of};
ghost use Rattle.engine.specs.Answer.{outcome_told};
ghost use Rattle.engine.specs.Deadlines.{confirm_timeout_told};
ghost use Rattle.engine.specs.HandingOut.{due_told, hand_out_told, take_ack_told};
ghost use Rattle.engine.specs.Links.{add_told};
ghost use Rattle.engine.specs.Resending.{resend_told};
ghost use Rattle.engine.specs.Sending.{send_told};

use engine::{ConfirmTimeout, HandOut};
use msg::ReliableMsg;
use refusal::Refusal;
use seq::Seq;
use words::bits::flag;

// The refusals that are told before the state is looked at: a state that is not sound, a store or the records of a wrong length, and a message that there is none of.
pub(crate) const UNSOUND: u64 = 1;

pub(crate) const WRONG_LENGTH: u64 = 2;

pub(crate) const UNKNOWN: u64 = 20;

pub(crate) fn refused(e: Refusal) -> u64
    ensures { result ≡ number_of e }
{
    e.number() as u64
}

pub(crate) fn word(seq: Seq) -> u64
    ensures { result ≡ seq.0 }
{
    u64::from(seq.0)
}

pub(crate) fn tell(outcome: Result<(), Refusal>) -> u64
    ensures { result ≡ (outcome_told outcome).number }
{
    match outcome {
        Ok(()) => 0,
        Err(e) => refused(e),
    }
}

// One value, of whatever type.
pub(crate) fn tell_one<T, F: FnOnce(T) -> u64>(
    answer: Result<T, Refusal>,
    values: &mut [u64; 3],
    word: F,
) -> u64
    requires { F.IsAlwaysCallable word }
    ensures refused { (e : Refusal) → answer ≡ Err e → (result ≡ number_of e) × (values.new ≡ values.old) }
    ensures said { (x : _) → answer ≡ Ok x → (n : ℕ) × F.post word x n × (result ≡ 0) × (values.new ≡ set values.old 0 n) }
{
    match answer {
        Err(refusal) => refused(refusal),
        Ok(x) => {
            values[0] = word(x);
            0
        }
    }
}

// The slot.
pub(crate) fn tell_added(answer: Result<u8, Refusal>, values: &mut [u64; 3]) -> u64
    ensures value { result ≡ (add_told answer).number }
    ensures values_after { values.new ≡ sets values.old 0 (add_told answer).values }
{
    tell_one(answer, values, |slot| u64::from(slot))
}

// The number.
pub(crate) fn tell_sent(answer: Result<Seq, Refusal>, values: &mut [u64; 3]) -> u64
    ensures value { result ≡ (send_told answer).number }
    ensures values_after { values.new ≡ sets values.old 0 (send_told answer).values }
{
    tell_one(answer, values, |seq| word(seq))
}

// The number.
pub(crate) fn tell_ack(answer: Result<Seq, Refusal>, values: &mut [u64; 3]) -> u64
    ensures value { result ≡ (take_ack_told answer).number }
    ensures values_after { values.new ≡ sets values.old 0 (take_ack_told answer).values }
{
    tell_one(answer, values, |seq| word(seq))
}

// Kind, count and length.
pub(crate) fn tell_resent(answer: Result<(ReliableMsg, u32), Refusal>, values: &mut [u64; 3]) -> u64
    ensures value { result ≡ (resend_told answer).number }
    ensures values_after { values.new ≡ sets values.old 0 (resend_told answer).values }
{
    match answer {
        Err(e) => refused(e),
        Ok((msg, len)) => {
            values[0] = msg.kind() as u64;
            values[1] = msg.count() as u64;
            values[2] = len as u64;
            0
        }
    }
}

// Kind, number and length.
pub(crate) fn tell_message(answer: HandOut, values: &mut [u64; 3]) -> u64
    ensures value { result ≡ (hand_out_told answer).number }
    ensures values_after { values.new ≡ sets values.old 0 (hand_out_told answer).values }
{
    match answer {
        Err(e) => refused(e),
        Ok((msg, seq, len)) => {
            values[0] = msg.kind() as u64;
            values[1] = word(seq);
            values[2] = len as u64;
            0
        }
    }
}

// 1 or 0.
pub(crate) fn tell_due(answer: Result<bool, Refusal>, values: &mut [u64; 3]) -> u64
    ensures value { result ≡ (due_told answer).number }
    ensures values_after { values.new ≡ sets values.old 0 (due_told answer).values }
{
    tell_one(answer, values, |due| flag(due))
}

// Slot, flushed or not, and the deadline; nothing where no packet is named.
pub(crate) fn tell_timeout(answer: ConfirmTimeout, values: &mut [u64; 3]) -> u64
    ensures value { result ≡ (confirm_timeout_told answer).number }
    ensures values_after { values.new ≡ sets values.old 0 (confirm_timeout_told answer).values }
{
    match answer {
        Err(e) => refused(e),
        Ok(named) => match named {
            None => 0,
            Some((slot, flushed, at)) => {
                values[0] = slot as u64;
                values[1] = flag(flushed);
                values[2] = at;
                0
            }
        },
    }
}
