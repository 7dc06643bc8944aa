#![tactic(auto)]
// The acceptance test of N's strings, and the reader.
ghost use Rattle.std.specs.Prelude.{◌≡◌, ◌&&◌, ℕ, ◌-◌, ◌%◌, ◌^◌, ◌≤◌, eqb, ltb, length};
ghost use Rattle.rules.specs.Forms.{card_n};
ghost use Rattle.rules.specs.Test.{first_fault, verdict};
ghost use Rattle.rules.specs.Promises.{Reads};
ghost use Rattle.rules.specs.Verdicts.{verdict_of};
ghost use Rattle.rules.specs.inner.Scan.{fault, held_next};
ghost use Rattle.scalar.specs.Answers.{bytes_of};

use digits::magnitude::magnitude;
use rules::{Refusal, Verdict};
use scalar::Scalar;
use sum::read_sum;

// The own rule of a digit that is not zero, by its absolute value.
fn odd_below(m: u32, half: u32) -> bool
    ensures { result ≡ (eqb (m % 2) 1 && ltb m half) }
{
    m % 2 == 1 && m < half
}

// What is wrong with the digit d at index i: its own rule before its place.
fn fault_of(d: i8, i: usize, held: usize, half: u32) -> Verdict
    ensures { (w : ℕ) → half ≡ 2 ^ (w - 1) → result ≡ fault (card_n w) i held d }
{
    let m = magnitude(d);
    if m == 0 {
        return Ok(());
    }
    let kept = odd_below(m, half);
    if !kept {
        return Err(Refusal::BrokenDigit(i));
    }
    if held != 0 {
        return Err(Refusal::Crowded(i));
    }
    Ok(())
}

// How many digits after d still lie within the gap.
fn next_held(d: i8, held: usize, gap: usize) -> usize
    ensures { result ≡ held_next gap held d }
{
    if d != 0 { gap } else { held.saturating_sub(1) }
}

// What is wrong first, from index 0 up.
fn first_fault(digits: &[i8], w: usize) -> Verdict
    requires { (2 ≤ w) × (w ≤ 8) }
    ensures { result ≡ first_fault (card_n w) digits.now 0 (length digits.now) }
{
    let half: u32 = 1 << (w - 1);
    let mut held: usize = 0;
    for (i, d) in digits.iter().enumerate() {
        fault_of(*d, i, held, half)?;
        held = next_held(*d, held, w - 1);
    }
    Ok(())
}

// The scalar of a string that passes the test. The slice stands beside its width, as document 01 and the C interface lend them.
pub fn read(digits: &[i8], w: usize) -> Result<Scalar, Refusal>
    ensures { Reads (card_n w) digits.now (verdict_of result) (bytes_of result) }
{
    if digits.len() != 256 {
        return Err(Refusal::WrongLength);
    }
    if !(2..=8).contains(&w) {
        return Err(Refusal::WrongWidth);
    }
    first_fault(digits, w)?;
    read_sum(digits, 1, true)
}

// The test: the reader's verdict. R's has these two lines over its own reader; `DigitForm::test` makes one of both.
pub fn test(digits: &[i8], w: usize) -> Verdict
    ensures { result ≡ verdict (card_n w) digits.now }
{
    read(digits, w)?;
    Ok(())
}
