// A packet made, and changed.
ghost use Rattle.std.specs.Prelude.{◌≡◌};
ghost use Rattle.engine.specs.Over.{StepsOver};
ghost use Rattle.engine.specs.Fields.{new_flight, flushed_flight, new_packet, with_status};

use crate::state::{InFlight, SentReliable, SentReliableStatus};
use msg::ReliableMsg;
use seq::Seq;

impl InFlight {
    pub fn new(time: u64, slot: u8, link: u64, resent: bool) -> InFlight
        ensures { result ≡ new_flight time slot link resent }
    {
        InFlight {
            sent: time,
            flushed: None,
            slot,
            link,
            resent,
        }
    }

    // A flush time that is there stays.
    pub fn flush(self, time: u64) -> InFlight
        ensures { result ≡ flushed_flight self time }
    {
        InFlight {
            flushed: self.flushed.or(Some(time)),
            ..self
        }
    }
}

impl SentReliable {
    pub fn new(seq: Seq, msg: ReliableMsg, len: u32, status: SentReliableStatus) -> SentReliable
        ensures { result ≡ new_packet seq msg len status }
    {
        SentReliable {
            seq,
            msg,
            len,
            status,
        }
    }

    pub fn with_status(self, status: SentReliableStatus) -> SentReliable
        ensures { result ≡ with_status self status }
    {
        SentReliable { status, ..self }
    }

    // With another status, where it was Sent over the slot.
    pub(crate) fn restatus<F: FnOnce(InFlight) -> SentReliableStatus>(
        self,
        slot: u8,
        step: F,
    ) -> SentReliable
        requires { F.IsAlwaysCallable step }
        ensures { StepsOver slot (F.post step) self.status (λ st. result ≡ with_status self st) }
    {
        match self.status {
            SentReliableStatus::Sent(flight) => {
                if flight.slot != slot {
                    return self;
                }
                self.with_status(step(flight))
            }
            SentReliableStatus::Received | SentReliableStatus::ResendQueued { .. } => self,
        }
    }
}
