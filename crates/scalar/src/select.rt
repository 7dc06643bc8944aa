// One of two scalars, by a choice of 0 or 1.
ghost use Rattle.rules.specs.Verdicts.{verdict_of};
ghost use Rattle.scalar.specs.Answers.{bytes_of};
ghost use Rattle.scalar.specs.ConditionalSelect.{Selects};

use crate::Scalar;
use rules::Refusal;

// The first at 0, the second at 1; any other choice is refused. The choice is a number, since document 01 and the C interface have one.
pub fn conditional_select(a: Scalar, b: Scalar, choice: u64) -> Result<Scalar, Refusal>
    ensures { Selects a.bytes b.bytes choice (verdict_of result) (bytes_of result) }
{
    match choice {
        0 => Ok(a),
        1 => Ok(b),
        _ => Err(Refusal::WrongChoice),
    }
}
