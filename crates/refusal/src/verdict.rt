// The refusals of a call, one gate after the other: the first that is shut refuses it.
ghost use Rattle.std.specs.Prelude.{◌≡◌, Ok};
ghost use Rattle.refusal.specs.Verdicts.{gate_by};

use crate::Refusal;

// A refusal where a test fails; behind it `?` goes on to the later gates.
pub fn refuse_unless(ok: bool, refusal: Refusal) -> Result<(), Refusal>
    ensures { result ≡ gate_by ok refusal (Ok tt) }
{
    if ok { Ok(()) } else { Err(refusal) }
}
