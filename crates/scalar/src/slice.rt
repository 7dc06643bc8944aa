// A scalar from a lent slice.
ghost use Rattle.rules.specs.Verdicts.{verdict_of};
ghost use Rattle.scalar.specs.Answers.{bytes_of};
ghost use Rattle.scalar.specs.FromSlice.{FromSlice};

use crate::Scalar;
use rules::Refusal;

// 32 bytes are taken as they are; another length is refused.
impl TryFrom<&[u8]> for Scalar {
    type Error = Refusal;

    ghost try_from_gives = { λ src answer. FromSlice src.now (verdict_of answer) (bytes_of answer) };

    fn try_from(src: &[u8]) -> Result<Self, Refusal> {
        match <[u8; 32]>::try_from(src) {
            Ok(bytes) => Ok(Scalar { bytes }),
            Err(_) => Err(Refusal::WrongLength),
        }
    }
}

// The same as a plain function.
pub fn from_slice(src: &[u8]) -> Result<Scalar, Refusal>
    ensures { FromSlice src.now (verdict_of result) (bytes_of result) }
{
    Scalar::try_from(src)
}
