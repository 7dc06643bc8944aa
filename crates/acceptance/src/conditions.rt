// The conditions that both forms meet, each written once.
ghost use Rattle.std.specs.Prelude.{◌≡◌, true, ◌↔◌, ℕ, refl};
ghost use Rattle.rules.specs.Verdicts.{verdict_of};
ghost use Rattle.scalar.specs.Answers.{bytes_of};
ghost use Rattle.acceptance.specs.Conditions.{Recoding, Reading, Back, Compared, same_of};
ghost use Rattle.acceptance.specs.Forms.{Named, N, R, form01, card};

use crate::looked_at::equal_digits;
use digits::recoding;
use forms::{DigitForm, FormN, FormR};
use rules::Refusal;
use scalar::Scalar;

// A form that document 01 names.
pub trait Accepted<const LEN: usize>: DigitForm<LEN> {
    // Its name.
    ghost name: { Named };

    // It is the library's form of that name.
    ghost named: { (w : ℕ) → Self.form w ≡ card name w };
}

impl Accepted<256> for FormN {
    ghost name = { N };

    ghost named = { λ w. refl };
}

impl Accepted<64> for FormR {
    ghost name = { R };

    ghost named = { λ w. refl };
}

// Conditions 1 and 2: the recoder. Its type is named by its module, since 01's `Recoding` has the short name.
pub fn recode<F: Accepted<LEN>, const LEN: usize>(s: Scalar, w: usize) -> recoding::Recoding<LEN>
    ensures { Recoding (form01 F.name w) s.bytes result.verdict result.digits result.count result.additions }
{
    F::recode(s, w)
}

// Conditions 2 and 3: the reader.
pub fn read<F: Accepted<LEN>, const LEN: usize>(digits: &[i8], w: usize) -> Result<Scalar, Refusal>
    ensures { Reading (form01 F.name w) digits.now (verdict_of result) (bytes_of result) }
{
    F::read(digits, w)
}

// Condition 2: recoded, then read, the bytes again.
pub fn there_and_back<F: Accepted<LEN>, const LEN: usize>(
    s: Scalar,
    w: usize,
) -> Result<Scalar, Refusal>
    ensures { Back (form01 F.name w) s.bytes (verdict_of result) (bytes_of result) }
{
    let made = F::recode(s, w);
    made.verdict?;
    F::read(&made.digits, w)
}

// Two scalars, told apart by their digits.
pub fn same_digits<F: Accepted<LEN>, const LEN: usize>(
    a: Scalar,
    b: Scalar,
    w: usize,
) -> Result<bool, Refusal>
    ensures { Compared (form01 F.name w) a.bytes b.bytes (verdict_of result) (same_of result) }
{
    let first = F::recode(a, w);
    let second = F::recode(b, w);
    first.verdict.and(second.verdict)?;
    Ok(equal_digits(&first.digits, &second.digits))
}

// Condition 3: the test passes exactly the strings of the form.
pub fn passes<F: Accepted<LEN>, const LEN: usize>(digits: &[i8], w: usize) -> bool
    ensures { (result ≡ true) ↔ (form01 F.name w).String digits.now }
{
    F::test(digits, w).is_ok()
}
