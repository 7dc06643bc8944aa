#![tactic(auto)]
// The scalar: 32 bytes that stand for an integer, and what needs no digits.
pub mod select;
pub mod slice;
pub mod zeroize;

ghost use Rattle.std.specs.Prelude.{◌≡◌};
ghost use Rattle.rules.specs.Integer.{integer};
ghost use Rattle.scalar.specs.FromBits.{Reduced};
ghost use Rattle.scalar.specs.IsOdd.{odd_integer};

// The lowest byte comes first.
#[derive(Clone, Copy, Debug, PartialEq, Eq)]
pub struct Scalar {
    pub bytes: [u8; 32],
}

impl Scalar {
    pub const ZERO: Scalar = Scalar { bytes: [0u8; 32] };

    pub const ONE: Scalar = Scalar {
        bytes: [
            1, 0, 0, 0, 0, 0, 0, 0, 0, 0, 0, 0, 0, 0, 0, 0, 0, 0, 0, 0, 0, 0, 0, 0, 0, 0, 0, 0, 0,
            0, 0, 0,
        ],
    };

    // A constant carries no contract: `zero` and `one` hand the two out, and promise what they are.
    pub fn zero() -> Scalar
        ensures { integer result.bytes ≡ 0 }
    {
        Scalar::ZERO
    }

    pub fn one() -> Scalar
        ensures { integer result.bytes ≡ 1 }
    {
        Scalar::ONE
    }

    // The top bit of the top byte is cleared, which is the remainder modulo 2^255.
    pub fn from_bits(bytes: [u8; 32]) -> Scalar
        ensures { Reduced bytes result.bytes }
    {
        let mut b = bytes;
        b[31] = b[31] % 128;
        Scalar { bytes: b }
    }

    pub fn is_odd(self) -> bool
        ensures { result ≡ odd_integer self.bytes }
    {
        let b = self.bytes;
        b[0] % 2 == 1
    }
}
