#![tactic(auto)]
// The 256 bits of a scalar, and back.
ghost use Rattle.std.specs.Prelude.{◌≡◌, map, ◌+◌, ◌<◌, ◌≤◌, length, take, drop};
ghost use Rattle.numbers.specs.Positional.{positional};
ghost use Rattle.bits.specs.BitNumber.{bit_number};
ghost use Rattle.bits.specs.Bits.{BitsOf, binary_digit};

use scalar::Scalar;
use std::array;

// Binary digit `place` of a byte.
fn bit_of(byte: u8, place: usize) -> bool
    requires { place < 8 }
    ensures { result ≡ binary_digit byte place }
{
    (byte >> place) % 2 == 1
}

// The bits, the lowest first.
pub fn bits_le(s: Scalar) -> [bool; 256]
    ensures { BitsOf s.bytes result }
{
    array::from_fn(|at| bit_of(s.bytes[at / 8], at % 8))
}

// A bit as a number.
pub fn one_if(bit: bool) -> u8
    ensures { (result ≡ bit_number bit) × (result ≤ 1) }
{
    u8::from(bit)
}

// The byte of eight bits, built from its top bit down.
fn byte_of(bits: &[bool]) -> u8
    requires { length bits.now ≡ 8 }
    ensures { result ≡ positional 2 (map bit_number bits.now) }
{
    bits.iter()
        .rev()
        .fold(0, |byte, bit| 2 * byte + one_if(*bit))
}

// The scalar with these bits, the lowest first.
pub fn from_bits_le(bits: [bool; 256]) -> Scalar
    ensures { BitsOf result.bytes bits }
{
    Scalar {
        bytes: array::from_fn(|k| byte_of(&bits[8 * k..8 * k + 8])),
    }
}
