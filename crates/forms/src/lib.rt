#![tactic(auto)]
// A form as its callers meet it: one trait for both forms, so that whatever is built on the recoders, tests and readers is written once.
ghost use Rattle.std.specs.Prelude.{◌≡◌, ◌≤◌, ℕ, T, refl};
ghost use Rattle.std.proofs.Common.{rules};
ghost use Rattle.rules.specs.Forms.{Form, card_n, card_r};
ghost use Rattle.rules.specs.Test.{verdict};
ghost use Rattle.rules.specs.Promises.{Recodes, Reads};
ghost use Rattle.rules.specs.Verdicts.{verdict_of};
ghost use Rattle.rules.specs.Exactly.{Lawful};
ghost use Rattle.rules.proofs.Exactly.{lawful-card-n, lawful-card-r};
ghost use Rattle.scalar.specs.Answers.{bytes_of};

use digits::recoding::Recoding;
use naf::recode::non_adjacent_form;
use radix::recode::as_radix_2w;
use rules::{Refusal, Verdict};
use scalar::Scalar;

// A form whose strings have LEN entries.
pub trait DigitForm<const LEN: usize> {
    // What document 01 says of the form, width by width.
    ghost form: { ℕ → Form };

    // The letter that names it in the program.
    ghost LETTER: { ℕ };

    const LETTER: u8;

    // The recoder.
    fn recode(s: Scalar, w: usize) -> Recoding<LEN>
        ensures { Recodes (form w) s.bytes result.verdict result.digits result.count result.additions };

    // The test. Digits come as a slice beside their width, as document 01 and the C interface lend them.
    fn test(digits: &[i8], w: usize) -> Verdict
        ensures { result ≡ verdict (form w) digits.now };

    // The reader.
    fn read(digits: &[i8], w: usize) -> Result<Scalar, Refusal>
        ensures { Reads (form w) digits.now (verdict_of result) (bytes_of result) };

    // At its own widths the form has all that the laws over a form ask.
    ghost lawful: { (w : ℕ) → T (form w).allowed → Lawful (form w) };

    // A string has LEN entries, and there are few of them.
    ghost long: { (w : ℕ) → (form w).long ≡ LEN };

    ghost short: { LEN ≤ 256 };

    // A scalar has 32 bytes.
    ghost whole: { (w : ℕ) → (form w).bytes ≡ 32 };
}

// Form N: non-adjacent digits.
#[derive(Clone, Copy, Debug, PartialEq, Eq)]
pub struct FormN;

// Form R: digits of radix 2^w.
#[derive(Clone, Copy, Debug, PartialEq, Eq)]
pub struct FormR;

impl DigitForm<256> for FormN {
    ghost form = { card_n };

    ghost LETTER = { 78 };

    const LETTER: u8 = b'N';

    ghost lawful = { lawful-card-n };

    ghost long = { λ w. refl };

    ghost short = { Prim.search rules };

    ghost whole = { λ w. refl };

    fn recode(s: Scalar, w: usize) -> Recoding<256> {
        non_adjacent_form(s, w)
    }

    fn test(digits: &[i8], w: usize) -> Verdict {
        naf_read::test(digits, w)
    }

    fn read(digits: &[i8], w: usize) -> Result<Scalar, Refusal> {
        naf_read::read(digits, w)
    }
}

impl DigitForm<64> for FormR {
    ghost form = { card_r };

    ghost LETTER = { 82 };

    const LETTER: u8 = b'R';

    ghost lawful = { lawful-card-r };

    ghost long = { λ w. refl };

    ghost short = { Prim.search rules };

    ghost whole = { λ w. refl };

    fn recode(s: Scalar, w: usize) -> Recoding<64> {
        as_radix_2w(s, w)
    }

    fn test(digits: &[i8], w: usize) -> Verdict {
        radix_read::test(digits, w)
    }

    fn read(digits: &[i8], w: usize) -> Result<Scalar, Refusal> {
        radix_read::read(digits, w)
    }
}
