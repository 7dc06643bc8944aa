// Form N's recoder: the integer of a scalar as a string of odd digits with zeros between them.
ghost use Rattle.std.specs.Prelude.{◌≡◌, ◌+◌, ◌-◌, ◌/◌, ◌%◌, ◌^◌, ◌<◌, ◌≤◌, MatchOption};
ghost use Rattle.rules.specs.Integer.{integer};
ghost use Rattle.rules.specs.Digits.{count, additions};
ghost use Rattle.rules.specs.Forms.{card_n};
ghost use Rattle.rules.specs.Promises.{Recoded, Recodes};
ghost use Rattle.rules.specs.Verdicts.{Done};
ghost use Rattle.naf.specs.inner.Turns.{StepN};

use digits::centre::{Carry, Centred, centre};
use digits::recoding::Recoding;
use rules::Refusal;
use scalar::Scalar;
use window::window;

// The digits of a scalar; one more than the index of the highest that is not zero; and how many are not zero.
pub type NonAdjacent = Recoding<256>;

// A width of the form, and half the span of its windows.
#[derive(Clone, Copy)]
struct Width {
    w: usize,
    half: u32,
    ghost least: { 2 ≤ w },
    ghost most: { w ≤ 8 },
    ghost power: { half ≡ 2 ^ (w - 1) },
}

impl Width {
    // The widths are 2 to 8.
    fn of(w: usize) -> Option<Width>
        ensures { MatchOption result ((2 ≤ w) × (w ≤ 8) → ⊥) (λ width. width.w ≡ w) }
    {
        if !(2..=8).contains(&w) {
            return None;
        }
        Some(Width {
            w,
            half: 1 << (w - 1),
        })
    }
}

// The heart of the loop: the window from a place up, and the carry. If that is odd, a digit stands there, and carries anew.
fn step(bytes: &[u8], at: usize, carry: Carry, width: Width) -> Option<Centred>
    ensures { StepN width.w (integer bytes.now / 2 ^ at % 2 ^ width.w + carry.bit) result }
{
    let x = window(bytes, at, width.w) + carry.bit;
    if x % 2 == 0 {
        return None;
    }
    Some(centre(x, width.half))
}

// From place 0 up: one place on where no digit stands, and past the window of a digit. A `for` cannot go on by w places.
fn recode(bytes: &[u8], width: Width) -> NonAdjacent
    ensures tallied { (result.verdict ≡ Done) × (result.count ≡ count result.digits) × (result.additions ≡ additions result.digits) }
    ensures recoded { integer bytes.now < 2 ^ 255 → Recoded (card_n width.w) (integer bytes.now) result.digits }
{
    let mut digits = [0i8; 256];
    let mut count: usize = 0;
    let mut additions: usize = 0;
    let mut carry = Carry::none();
    let mut at: usize = 0;
    while at < 256 {
        if let Some(c) = step(bytes, at, carry, width) {
            digits[at] = c.digit as i8;
            count = at + 1;
            additions += 1;
            carry = c.carry;
            at += width.w;
        } else {
            at += 1;
        }
    }
    NonAdjacent::done(digits, count, additions)
}

// Widths 2 to 8, and then byte 31 at most 127; any other call is refused, with zeros.
pub fn non_adjacent_form(s: Scalar, w: usize) -> NonAdjacent
    ensures { Recodes (card_n w) s.bytes result.verdict result.digits result.count result.additions }
{
    let Some(width) = Width::of(w) else {
        return NonAdjacent::refused(Refusal::WrongWidth);
    };
    let bytes = s.bytes;
    if 127 < bytes[31] {
        return NonAdjacent::refused(Refusal::TooWide);
    }
    recode(&bytes, width)
}
