#![tactic(auto)]
// Form R read back: the test of a digit string, and its 32 bytes.
ghost use Rattle.std.specs.Prelude.{◌≡◌, ◌-◌, ◌^◌, ◌<◌, T, IfOk, length};
ghost use Rattle.rules.specs.Widths.{width_r, row as row_at};
ghost use Rattle.rules.specs.Forms.{digit_r, card_r};
ghost use Rattle.rules.specs.Test.{first_fault, verdict};
ghost use Rattle.rules.specs.Promises.{Reads};
ghost use Rattle.rules.specs.Verdicts.{verdict_of, unless};
ghost use Rattle.scalar.specs.Answers.{bytes_of};

use digits::magnitude::offset;
use rules::{Refusal, Verdict};
use scalar::Scalar;
use shape::{Row, shape};
use sum::read_sum;

// What R asks of the digits at one of its widths: the width's row, and half the span of a digit before the last.
#[derive(Clone, Copy)]
struct Rule {
    w: usize,
    half: u32,
    row: Row,
    ghost allowed: { T (width_r w) },
    ghost halved: { half ≡ 2 ^ (w - 1) },
    ghost counted: { row.digits ≡ (row_at w).digits },
    ghost topped: { row.top ≡ (row_at w).top },
    ghost ended: { row.bits ≡ (row_at w).bits },
}

impl Rule {
    // The rule of a width; one that is not R's is refused.
    fn of(w: usize) -> Result<Rule, Refusal>
        ensures answered { verdict_of result ≡ unless (width_r w) Refusal.WrongWidth }
        ensures at_width { IfOk result (λ rule. rule.w ≡ w) }
    {
        let row = shape(w)?;
        Ok(Rule {
            w,
            half: 1 << (w - 1),
            row,
        })
    }

    // Whether a digit keeps its own rule at an index: a test on its distance from -128, an unsigned number.
    fn keeps(&self, d: i8, i: usize) -> bool
        requires { i < 64 }
        ensures { result ≡ digit_r self.now.w self.now.row.digits self.now.row.top i d }
    {
        let e = offset(d);
        let n = self.row.digits;
        if i + 1 < n {
            return (128 - self.half..=127 + self.half).contains(&e);
        }
        if i + 1 == n {
            return (128..=128 + self.row.top).contains(&e);
        }
        e == 128
    }

    // The first digit that breaks its rule, from index 0 up.
    fn first_fault(&self, digits: &[i8]) -> Verdict
        requires { length digits.now ≡ 64 }
        ensures { result ≡ first_fault (card_r self.now.w) digits.now 0 (length digits.now) }
    {
        for (i, d) in digits.iter().enumerate() {
            if !self.keeps(*d, i) {
                return Err(Refusal::BrokenDigit(i));
            }
        }
        Ok(())
    }
}

// The scalar of a string that passes the test. The slice stands beside its width, as document 01 and the C interface lend them.
pub fn read(digits: &[i8], w: usize) -> Result<Scalar, Refusal>
    ensures { Reads (card_r w) digits.now (verdict_of result) (bytes_of result) }
{
    if digits.len() != 64 {
        return Err(Refusal::WrongLength);
    }
    let rule = Rule::of(w)?;
    rule.first_fault(digits)?;
    read_sum(&digits[..rule.row.digits], w, rule.row.bits == 255)
}

// The test: the reader's verdict. N's has these two lines over its own reader; `DigitForm::test` makes one of both.
pub fn test(digits: &[i8], w: usize) -> Verdict
    ensures { result ≡ verdict (card_r w) digits.now }
{
    read(digits, w)?;
    Ok(())
}
