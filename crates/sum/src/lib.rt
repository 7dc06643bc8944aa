#![tactic(auto)]
// The sum of a digit string, as 32 bytes.
ghost use Rattle.std.specs.Prelude.{◌≡◌, cond, ◌+◌, ◌-◌, ◌*◌, ◌/◌, ◌^◌, ◌<◌, ◌≤◌, length, pos, ◌+ℤ◌};
ghost use Rattle.rules.specs.Digits.{digit_at, weighted};
ghost use Rattle.rules.specs.Verdicts.{verdict_of};
ghost use Rattle.scalar.specs.Answers.{bytes_of};
ghost use Rattle.sum.specs.inner.Adds.{Keeps, Gathers, Totals, Judged};
ghost use Rattle.sum.specs.SumRead.{SumRead};

use digits::magnitude::offset;
use rules::Refusal;
use scalar::Scalar;

// A digit string that is added up, and the bits of each digit.
#[derive(Clone, Copy)]
struct Summands<'a> {
    digits: &'a [i8],
    w: usize,
    ghost least: { 1 ≤ w },
    ghost most: { w ≤ 8 },
}

// What is added up and not yet a byte, when `next` digits are in: `bits` bits, and above them a carry that counts from 128.
#[derive(Clone, Copy)]
struct Held {
    next: usize,
    sum: u32,
    bits: usize,
    ghost small: { sum < 2 ^ (bits + 8) },
    ghost bounded: { bits ≤ 15 },
}

// The bytes of a sum, and what stands above them, counted from `half`.
#[derive(Clone, Copy)]
struct Total {
    bytes: [u8; 32],
    above: u32,
    half: u32,
}

impl Held {
    // No digit is in yet, and the carry is 0.
    fn new() -> Held
        ensures { (result.next ≡ 0) × (result.sum ≡ 128) × (result.bits ≡ 0) }
    {
        Held {
            next: 0,
            sum: 128,
            bits: 0,
        }
    }

    // What is held past the lowest byte.
    fn rest(self) -> Held
        requires { 8 ≤ self.bits }
        ensures { (result.next ≡ self.next) × (result.sum ≡ self.sum / 256) × (result.bits ≡ self.bits - 8) }
    {
        Held {
            next: self.next,
            sum: self.sum / 256,
            bits: self.bits - 8,
        }
    }
}

impl<'a> Summands<'a> {
    // The digit at an index and 128 more; past the last digit stand zeros.
    fn offset_at(&self, i: usize) -> u32
        ensures { (pos result ≡ digit_at self.now.digits.now i +ℤ pos 128) × (result < 256) }
    {
        self.digits.get(i).copied().map_or(128, offset)
    }

    // One digit more: the 128 of the digit and of the carry go, and 128 come in above the digit.
    fn add_digit(&self, held: Held) -> Held
        requires { (held.bits < 8) × (held.next ≤ 310) }
        ensures next { result.next ≡ held.next + 1 }
        ensures bits { result.bits ≡ held.bits + self.now.w }
        ensures keeps { Keeps self.now.digits.now self.now.w held.next held.sum held.bits result.next result.sum result.bits }
    {
        let digit = self.offset_at(held.next);
        Held {
            next: held.next + 1,
            sum: held.sum + ((digit + (128 << self.w) - 256) << held.bits),
            bits: held.bits + self.w,
        }
    }

    // Digits are taken up until a byte is full.
    fn gather(&self, from: Held) -> Held
        requires { (from.bits < 8) × (from.next ≤ 300) }
        ensures { Gathers self.now.digits.now self.now.w from.next from.sum from.bits result.next result.sum result.bits }
    {
        let mut held = from;
        // A byte is full after one digit or after eight: there is no range for a `for` to run over.
        while held.bits < 8 {
            held = self.add_digit(held);
        }
        held
    }

    // All digits are taken up, and 32 bytes written.
    fn add_up(&self) -> Total
        requires { self.now.w * length self.now.digits.now ≤ 264 }
        ensures { Totals (weighted (2 ^ self.now.w) self.now.digits.now) result.bytes result.above result.half }
    {
        let mut bytes = [0u8; 32];
        let mut held = Held::new();
        for at in 0..32 {
            let full = self.gather(held);
            bytes[at] = (full.sum % 256) as u8;
            held = full.rest();
        }
        let last = self.gather(held);
        Total {
            bytes,
            above: last.sum,
            half: 128 << last.bits,
        }
    }
}

// The largest byte 31 of the range.
fn largest_top(short: bool) -> u8
    ensures { result ≡ cond short 127 255 }
{
    if short { 127 } else { 255 }
}

// A sum against the range.
fn judge(sum: Total, short: bool) -> Result<Scalar, Refusal>
    ensures { Judged sum.bytes sum.above sum.half short (verdict_of result) (bytes_of result) }
{
    if sum.above < sum.half {
        return Err(Refusal::Negative);
    }
    if sum.half < sum.above {
        return Err(Refusal::PastEnd);
    }
    let bytes = sum.bytes;
    if largest_top(short) < bytes[31] {
        return Err(Refusal::PastEnd);
    }
    Ok(Scalar { bytes })
}

// The sum of the digits at base 2^w, as bytes. The range ends at 2^255 where it is short, else at 2^256; a sum outside it, and a
// string of other widths or of more than 264 bits, is refused.
pub fn read_sum(digits: &[i8], w: usize, short: bool) -> Result<Scalar, Refusal>
    ensures { SumRead digits.now w short (verdict_of result) (bytes_of result) }
{
    if !(1..=8).contains(&w) {
        return Err(Refusal::WrongWidth);
    }
    if 264 < digits.len() {
        return Err(Refusal::WrongWidth);
    }
    if 264 < w * digits.len() {
        return Err(Refusal::WrongWidth);
    }
    judge(Summands { digits, w }.add_up(), short)
}
