// Lent bytes are overwritten with zeros.
ghost use Rattle.scalar.specs.Zeroize.{Zeroized};

use rules::{Refusal, Verdict};

// 32 bytes become zeros; another length is refused, and nothing is written.
pub fn zeroize(buf: &mut [u8]) -> Verdict
    ensures { Zeroized buf.old buf.new result }
{
    if buf.len() != 32 {
        return Err(Refusal::WrongLength);
    }
    buf.fill(0);
    Ok(())
}
