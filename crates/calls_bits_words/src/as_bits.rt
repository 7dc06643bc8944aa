// A scalar's 256 bits as bytes, and back.
ghost use Rattle.std.specs.Prelude.{◌≡◌, map, length};
ghost use Rattle.bits.specs.BitNumber.{bit_number};
ghost use Rattle.calls.specs.Code.{code};
ghost use Rattle.calls_bits_words.specs.Bits.{CardBits, CardFromBitBytes, is_set};

use bits::{bits_le, from_bits_le, one_if};
use calls::length::has_length;
use rules::Verdict;
use scalar::slice::from_slice;
use std::array;

// Bits as bytes 0 and 1. An array's own `map` takes over a hundred times as long.
fn bytes_of(bits: [bool; 256]) -> [u8; 256]
    ensures { result ≡ map bit_number bits }
{
    array::from_fn(|i| one_if(bits[i]))
}

// 256 lent bytes as bits: not 0 is true.
fn bits_of(src: &[u8]) -> [bool; 256]
    requires { length src.now ≡ 256 }
    ensures { result ≡ map is_set src.now }
{
    array::from_fn(|i| src[i] != 0)
}

pub fn bits(bytes: &[u8], bits: &mut [u8]) -> Verdict
    ensures { CardBits bytes.now bits.old bits.new (code result) }
{
    has_length(bits, 256)?;
    let given = from_slice(bytes)?;
    let made = bytes_of(bits_le(given));
    bits.copy_from_slice(&made);
    Ok(())
}

pub fn from_bit_bytes(bits: &[u8], out: &mut [u8]) -> Verdict
    ensures { CardFromBitBytes bits.now out.old out.new (code result) }
{
    has_length(out, 32)?;
    has_length(bits, 256)?;
    let made = from_bits_le(bits_of(bits));
    out.copy_from_slice(&made.bytes);
    Ok(())
}
