// The number that a call of the C interface returns.
ghost use Rattle.std.specs.Prelude.{◌≡◌};
ghost use Rattle.calls.specs.Code.{code};

use rules::Verdict;

// A verdict's number, and its position above the lowest byte.
pub fn code_of(v: Verdict) -> u64
    ensures { result ≡ code v }
{
    match v {
        Ok(()) => 0,
        Err(refusal) => (refusal.number() as u64) + ((refusal.position() as u64) << 8),
    }
}
