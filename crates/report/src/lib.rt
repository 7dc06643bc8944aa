#![tactic(auto)]
// The program's text: from the bytes of the input to the bytes of the report.
mod text;

ghost use Rattle.std.specs.Prelude.{◌≡◌, ◌<◌, ◌≤◌, length, drop};
ghost use Rattle.report.specs.Report.{Reports};
ghost use Rattle.report.specs.declared.TheConstants.{SIZE};
ghost use Rattle.report.specs.inner.Room.{HasRoom};
ghost use Rattle.report.specs.inner.Written.{WrittenOf, WrittenAll};

use forms::{DigitForm, FormN, FormR};
use rules::Refusal;
use scalar::Scalar;
use scalar::slice::from_slice;
use text::Text;

// How many bytes a report's array has: the number that `Reports` names.
pub const SIZE: usize = 2560;

// A report: the first `len` bytes are its text, and those past it are 0.
// An array with its length beside, and no `Vec` or `String`: a report has to be made whatever the memory, and what stands past the text is promised to be 0.
#[derive(Clone, Copy)]
pub struct Output {
    pub bytes: [u8; SIZE],
    pub len: usize,
    ghost inside: { len ≤ SIZE },
}

// The lines of a form.
fn put_form<F: DigitForm<LEN>, const LEN: usize>(text: &mut Text, s: Scalar, w: usize)
    requires { HasRoom 2400 text.old × (w < 256) }
    ensures { WrittenOf F.LETTER F.form s.bytes w text.old text.new }
{
    text.answer(F::LETTER, w, &F::recode(s, w));
}

// The scalar of an input of 34 bytes.
fn scalar_of(input: &[u8]) -> Scalar
    requires { length input.now ≡ 34 }
    ensures { result.bytes ≡ drop 2 input.now }
{
    from_slice(&input[2..]).unwrap()
}

// The lines after the fixed one.
fn put_lines(text: &mut Text, input: &[u8])
    requires { HasRoom 2400 text.old }
    ensures { WrittenAll input.now text.old text.new }
{
    if input.len() != 34 {
        return text.refused_line(Refusal::WrongLength);
    }
    let w = input[1] as usize;
    let s = scalar_of(input);
    match input[0] {
        b'N' => put_form::<FormN, 256>(text, s, w),
        b'R' => put_form::<FormR, 64>(text, s, w),
        _ => text.refused_line(Refusal::WrongForm),
    }
}

// The report of an input of any length.
#[tactic(auto, using(crate::proofs::TextLaws::texts))]
pub fn report(input: &[u8]) -> Output
    ensures { Reports input.now result.bytes result.len }
{
    let mut text = Text::new();
    text.fixed_line();
    put_lines(&mut text, input);
    text.finish()
}
