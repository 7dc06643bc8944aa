// A lent slice's length, tried before all else.
ghost use Rattle.std.specs.Prelude.{◌≡◌};
ghost use Rattle.rules.specs.Verdicts.{unless};
ghost use Rattle.calls.specs.Answers.{sized};

use rules::{Refusal, Verdict};

// Done where there are n elements.
pub fn has_length<T>(lent: &[T], n: usize) -> Verdict
    ensures { result ≡ unless (sized n lent.now) Refusal.WrongLength }
{
    if lent.len() != n {
        return Err(Refusal::WrongLength);
    }
    Ok(())
}
