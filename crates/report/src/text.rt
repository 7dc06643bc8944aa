// The text of a report as it grows, and the lines that are put at its end.
ghost use Rattle.std.specs.Prelude.{◌≡◌, ◌+◌, ◌-◌, ◌*◌, ◌<◌, ◌≤◌, [], ◌++◌, length, replicate};
ghost use Rattle.report.specs.inner.Room.{HasRoom};
ghost use Rattle.report.specs.Text.{decimal, signed_decimal, fixed_line, form_line, digit_line, digit_lines, refused_line, answer_lines};

use crate::{Output, SIZE};
use digits::recoding::Recoding;
use rules::Refusal;
use std::marker::Model;

// A figure as the byte that is written.
fn figure(n: usize) -> u8
    requires { n < 10 }
    ensures { result ≡ 48 + n }
{
    b'0' + n as u8
}

// The text so far is the first `len` bytes, and those past it are 0.
// A type of its own and no `Output`: its Model is the text alone, which the methods' clauses speak of, while a reader of `Output` sees the array.
#[derive(Drop)]
pub struct Text {
    bytes: [u8; SIZE],
    len: usize,
}

// Clauses see the text so far.
impl Model for Text {
    ghost use Rattle.std.specs.Prelude.{◌≡◌, ◌-◌, ◌≤◌, ℕ, List, take, drop, replicate};
    ghost use Rattle.report.specs.declared.TheConstants.{SIZE};

    ghost Value = { List ℕ };

    ghost view = { λ t. take t.len t.bytes };

    ghost invariant = { λ t. (t.len ≤ SIZE) × (drop t.len t.bytes ≡ replicate (SIZE - t.len) 0) };
}

#[tactic(auto, using(crate::proofs::TextLaws::texts), unfolding(crate::specs::Text::fixed_line, crate::specs::Text::digit_line, crate::specs::Text::digit_lines, crate::specs::Text::refused_line, crate::specs::Ascii::ascii))]
impl Text {
    // No text yet.
    pub fn new() -> Self
        ensures { result ≡ [] }
    {
        Text {
            bytes: [0; SIZE],
            len: 0,
        }
    }

    // The report that has this text.
    pub fn finish(self) -> Output
        ensures bytes { result.bytes ≡ self ++ replicate (SIZE - result.len) 0 }
        ensures len { result.len ≡ length self }
    {
        let Text { bytes, len } = self;
        Output { bytes, len }
    }

    // A text, byte for byte.
    fn push(&mut self, t: &[u8])
        requires { HasRoom (length t.now) self.old }
        ensures { self.new ≡ self.old ++ t.now }
    {
        let end = self.len + t.len();
        self.bytes[self.len..end].copy_from_slice(t);
        self.len = end;
    }

    // A number below 1000 in decimal.
    // By hand: what `write!` ensures leaves an `Err` open, a `String` may run out of memory, and a report has to be made; a crate that writes numbers would be one
    // more to trust, and this repository stands on `std` alone.
    fn number(&mut self, n: usize)
        requires { (n < 1000) × HasRoom 3 self.old }
        ensures { self.new ≡ self.old ++ decimal n }
    {
        if n < 10 {
            return self.push(&[figure(n)]);
        }
        if n < 100 {
            return self.push(&[figure(n / 10), figure(n % 10)]);
        }
        self.push(&[figure(n / 100), figure(n / 10 % 10), figure(n % 10)]);
    }

    // A digit in decimal, with a minus sign if it is negative.
    fn digit(&mut self, d: i8)
        requires { HasRoom 4 self.old }
        ensures { self.new ≡ self.old ++ signed_decimal d }
    {
        let size = usize::from(d.unsigned_abs());
        if d < 0 {
            self.push(b"-");
            return self.number(size);
        }
        self.number(size);
    }

    // A digit's line: its index and the digit. A digit that is 0 has none.
    fn digit_line(&mut self, i: usize, d: i8)
        requires { (i < 1000) × HasRoom 9 self.old }
        ensures { self.new ≡ self.old ++ digit_line i d }
    {
        if d != 0 {
            self.number(i);
            self.push(b" ");
            self.digit(d);
            self.push(b"\n");
        }
    }

    // The lines of the digits, from index 0 up.
    fn digit_lines(&mut self, digits: &[i8])
        requires { (length digits.now ≤ 256) × HasRoom (9 * length digits.now) self.old }
        ensures { self.new ≡ self.old ++ digit_lines 0 digits.now }
    {
        for (i, &d) in digits.iter().enumerate() {
            self.digit_line(i, d);
        }
    }

    // The fixed line that every report begins with.
    pub fn fixed_line(&mut self)
        requires { HasRoom 14 self.old }
        ensures { self.new ≡ self.old ++ fixed_line }
    {
        self.push(b"card-digits 1\n");
    }

    // The form line: the form's letter, the width and the count.
    fn form_line(&mut self, letter: u8, w: usize, count: usize)
        requires { (w < 1000) × (count < 1000) × HasRoom 32 self.old }
        ensures { self.new ≡ self.old ++ form_line letter w count }
    {
        self.push(b"form ");
        self.push(&[letter]);
        self.push(b" width ");
        self.number(w);
        self.push(b" count ");
        self.number(count);
        self.push(b"\n");
    }

    // The line of a refusal.
    pub fn refused_line(&mut self, refusal: Refusal)
        requires { HasRoom 16 self.old }
        ensures { self.new ≡ self.old ++ refused_line (Err refusal) }
    {
        self.push(b"refused ");
        self.number(refusal.number() as usize);
        self.push(b"\n");
    }

    // The lines after the fixed one: those of a refusal, or the form line and the digits.
    pub fn answer<const LEN: usize>(&mut self, letter: u8, w: usize, made: &Recoding<LEN>)
        requires { (w < 1000) × (made.now.count < 1000) × (LEN ≤ 256) × HasRoom 2400 self.old }
        ensures { self.new ≡ self.old ++ answer_lines letter w made.now.verdict made.now.count made.now.digits }
    {
        match made.verdict {
            Ok(()) => {
                self.form_line(letter, w, made.count);
                self.digit_lines(&made.digits);
            }
            Err(refusal) => self.refused_line(refusal),
        }
    }
}
