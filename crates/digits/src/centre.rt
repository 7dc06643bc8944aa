// A window of bits made a signed digit.
ghost use Rattle.std.specs.Prelude.{◌≡◌, ◌^◌, ◌<◌, ◌≤◌};
ghost use Rattle.std.proofs.Math.IntN.{sub_ℕ};
ghost use Rattle.numbers.specs.Centred.{centred, carried};

// What a window carries to the next: 0 or 1.
#[derive(Clone, Copy)]
pub struct Carry {
    pub bit: u32,
    pub ghost small: { bit ≤ 1 },
}

impl Carry {
    // No carry, which is what comes from below the lowest window.
    pub fn none() -> Carry
        ensures { result.bit ≡ 0 }
    {
        Carry { bit: 0 }
    }
}

// A digit, and what it carries to the next. The digit is wide enough for every window: who stores it narrows it.
#[derive(Clone, Copy)]
pub struct Centred {
    pub digit: i64,
    pub carry: Carry,
}

// What a window carries: 1 from half its span on. Not a branch, which half of the windows would take.
fn carry_of(window: u32, half: u32) -> Carry
    ensures { result.bit ≡ carried half window }
{
    Carry {
        bit: (half <= window) as u32,
    }
}

// A window less a span, in a wider signed number.
fn less(window: u64, span: u64) -> i64
    requires { (window < 2 ^ 34) × (span < 2 ^ 34) }
    ensures { result ≡ sub_ℕ window span }
{
    (window as i64) - (span as i64)
}

// The digit of a window, where `half` is half its span, and its carry.
pub fn centre(window: u32, half: u32) -> Centred
    ensures { (result.digit ≡ centred half window) × (result.carry.bit ≡ carried half window) }
{
    let carry = carry_of(window, half);
    let digit = less(window as u64, (carry.bit as u64) * (2 * (half as u64)));
    Centred { digit, carry }
}
