// The recoders of form R.
ghost use Rattle.std.specs.Prelude.{◌≡◌, ◌+◌, ◌-◌, ◌/◌, ◌%◌, ◌^◌, ◌<◌, ◌≤◌, get_or};
ghost use Rattle.numbers.specs.Centred.{centred, carried};
ghost use Rattle.rules.specs.Integer.{integer};
ghost use Rattle.rules.specs.Widths.{row};
ghost use Rattle.rules.specs.Forms.{card_r};
ghost use Rattle.rules.specs.Promises.{Recoded, Recodes};

use digits::centre::{Carry, Centred, centre};
use digits::recoding::Recoding;
use rules::Refusal;
use scalar::Scalar;
use shape::shape;
use window::window;

// The digits of a scalar, and their number; R counts no additions.
pub type Radix = Recoding<64>;

// The two digits of a byte, and what they carry to the next.
#[derive(Clone, Copy)]
struct Pair {
    low: i8,
    high: i8,
    carry: Carry,
}

// A byte's halves, the lower first, each with the carry from below.
fn two_digits(byte: u8, carry: Carry) -> Pair
    ensures { (result.low ≡ centred 8 (byte % 16 + carry.bit))
        × (result.high ≡ centred 8 (byte / 16 + carried 8 (byte % 16 + carry.bit)))
        × (result.carry.bit ≡ carried 8 (byte / 16 + carried 8 (byte % 16 + carry.bit))) }
{
    let first = centre((byte % 16) as u32 + carry.bit, 8);
    let second = centre((byte / 16) as u32 + first.carry.bit, 8);
    Pair {
        low: first.digit as i8,
        high: second.digit as i8,
        carry: second.carry,
    }
}

// The 64 digits of radix 16; the last is not recentred. The index places a byte and its two digits.
fn nibbles(bytes: [u8; 32]) -> [i8; 64]
    requires { get_or bytes 31 0 ≤ 127 }
    ensures { Recoded (card_r 4) (integer bytes) result }
{
    let mut digits = [0i8; 64];
    let mut carry = Carry::none();
    for k in 0..31 {
        let two = two_digits(bytes[k], carry);
        digits[2 * k] = two.low;
        digits[2 * k + 1] = two.high;
        carry = two.carry;
    }
    let top = bytes[31];
    let below = centre((top % 16) as u32 + carry.bit, 8);
    digits[62] = below.digit as i8;
    digits[63] = ((top / 16) as u32 + below.carry.bit) as i8;
    digits
}

// A byte 31 above 127 is refused.
pub fn as_radix_16(s: Scalar) -> Radix
    ensures { Recodes (card_r 4) s.bytes result.verdict result.digits result.count result.additions }
{
    let bytes = s.bytes;
    if 127 < bytes[31] {
        return Radix::refused(Refusal::TooWide);
    }
    Radix::done(nibbles(bytes), 64, 0)
}

// The digit of the window at a place, with the carry from below.
fn digit_at(bytes: &[u8], at: usize, w: usize, carry: Carry) -> Centred
    requires { (4 < w) × (w ≤ 8) }
    ensures { (result.digit ≡ centred (2 ^ (w - 1)) (integer bytes.now / 2 ^ at % 2 ^ w + carry.bit))
        × (result.carry.bit ≡ carried (2 ^ (w - 1)) (integer bytes.now / 2 ^ at % 2 ^ w + carry.bit)) }
{
    centre(window(bytes, at, w) + carry.bit, 1 << (w - 1))
}

// The digits of radix 2^w, n of them; the last is its window and the carry. The index places a window and its digit; an iterator over the digits asks for a longer invariant.
fn windows(bytes: [u8; 32], w: usize, n: usize) -> [i8; 64]
    requires { (4 < w) × (w ≤ 8) × (n ≡ (row w).digits) }
    ensures { Recoded (card_r w) (integer bytes) result }
{
    let mut digits = [0i8; 64];
    let mut carry = Carry::none();
    let last = n - 1;
    for i in 0..last {
        let c = digit_at(&bytes, w * i, w, carry);
        digits[i] = c.digit as i8;
        carry = c.carry;
    }
    let top = window(&bytes, w * last, w) + carry.bit;
    digits[last] = top as i8;
    digits
}

// A width other than 4 to 8 is refused; width 4 is radix 16.
pub fn as_radix_2w(s: Scalar, w: usize) -> Radix
    ensures { Recodes (card_r w) s.bytes result.verdict result.digits result.count result.additions }
{
    let row = match shape(w) {
        Ok(row) => row,
        Err(refusal) => return Radix::refused(refusal),
    };
    if w == 4 {
        return as_radix_16(s);
    }
    Radix::done(windows(s.bytes, w, row.digits), row.digits, 0)
}
