#![tactic(auto)]
// The calls on digits, for either form. Lengths are tried first, and a refused call writes nothing. Slices stand beside their width, as C lends them.
ghost use Rattle.std.specs.Prelude.{◌≡◌};
ghost use Rattle.rules.specs.Test.{verdict};
ghost use Rattle.rules.specs.Verdicts.{unless, ◌or_else◌};
ghost use Rattle.calls.specs.Answers.{sized};
ghost use Rattle.calls.specs.Code.{code};
ghost use Rattle.calls.specs.Forms.{CardRecode, CardTest, CardRead};

use calls::length::has_length;
use forms::DigitForm;
use rules::{Refusal, Verdict};
use scalar::slice::from_slice;

pub fn recode<F: DigitForm<LEN>, const LEN: usize>(
    scalar: &[u8],
    width: usize,
    digits: &mut [i8],
    tally: &mut [u32],
) -> Verdict
    ensures { CardRecode (F.form width) scalar.now
        digits.old tally.old digits.new tally.new (code result) }
{
    has_length(digits, LEN)?;
    has_length(tally, 2)?;
    let made = F::recode(from_slice(scalar)?, width);
    made.verdict?;
    let count = made.count as u32;
    let additions = made.additions as u32;
    digits.copy_from_slice(&made.digits);
    tally.copy_from_slice(&[count, additions]);
    Ok(())
}

pub fn test<F: DigitForm<LEN>, const LEN: usize>(digits: &[i8], width: usize) -> Verdict
    ensures coded { CardTest (F.form width) digits.now (code result) }
    ensures is { result ≡ verdict (F.form width) digits.now }
{
    F::test(digits, width)
}

pub fn read<F: DigitForm<LEN>, const LEN: usize>(
    digits: &[i8],
    width: usize,
    out: &mut [u8],
) -> Verdict
    ensures coded { CardRead (F.form width) digits.now out.old out.new (code result) }
    ensures is { result ≡ unless (sized 32 out.old) Refusal.WrongLength or_else verdict (F.form width) digits.now }
{
    has_length(out, 32)?;
    let made = F::read(digits, width)?;
    out.copy_from_slice(&made.bytes);
    Ok(())
}
