#![tactic(auto)]
// The calls on whole scalars. Lengths are tried first, and a refused call writes nothing.
ghost use Rattle.calls.specs.Code.{code};
ghost use Rattle.calls_scalars.specs.Scalars.{CardFromBits, CardSelect, CardIsOdd, CardZeroize};

use bits::one_if;
use calls::length::has_length;
use rules::Verdict;
use scalar::Scalar;
use scalar::select::conditional_select;
use scalar::slice::from_slice;
use scalar::zeroize::zeroize;

pub fn from_bits(bytes: &[u8], out: &mut [u8]) -> Verdict
    ensures { CardFromBits bytes.now out.old out.new (code result) }
{
    has_length(out, 32)?;
    let given = from_slice(bytes)?;
    let made = Scalar::from_bits(given.bytes);
    out.copy_from_slice(&made.bytes);
    Ok(())
}

pub fn select(a: &[u8], b: &[u8], choice: u64, out: &mut [u8]) -> Verdict
    ensures { CardSelect a.now b.now choice out.old out.new (code result) }
{
    has_length(out, 32)?;
    let first = from_slice(a)?;
    let second = from_slice(b)?;
    // By a match: with `?` the scalar is copied once more, and the call takes a quarter longer.
    match conditional_select(first, second, choice) {
        Ok(made) => out.copy_from_slice(&made.bytes),
        Err(refusal) => return Err(refusal),
    }
    Ok(())
}

pub fn is_odd(bytes: &[u8], out: &mut [u8]) -> Verdict
    ensures { CardIsOdd bytes.now out.old out.new (code result) }
{
    has_length(out, 1)?;
    let given = from_slice(bytes)?;
    out[0] = one_if(given.is_odd());
    Ok(())
}

pub fn zero_out(buf: &mut [u8]) -> Verdict
    ensures { CardZeroize buf.old buf.new (code result) }
{
    zeroize(buf)
}
