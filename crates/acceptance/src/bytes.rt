// Bits and words: what they are, there and back.
ghost use Rattle.std.specs.Prelude.{◌≡◌};
ghost use Rattle.acceptance.specs.Bytes.{BitsAre, WordsAre};

use bits::{bits_le, from_bits_le};
use scalar::Scalar;
use words::{read_le_u64_into, write_le_u64_into};

// Condition 2: the bits.
pub fn bits(s: Scalar) -> [bool; 256]
    ensures { BitsAre s.bytes result }
{
    bits_le(s)
}

// Condition 2: the words. The lengths are right, so that the call is not refused.
pub fn words(s: Scalar) -> [u64; 4]
    ensures { WordsAre s.bytes result }
{
    let from = s.bytes;
    let mut words = [0u64; 4];
    let _ = read_le_u64_into(&from, &mut words);
    words
}

// 32 bytes as 256 bits, and the bytes again.
pub fn by_bits(s: Scalar) -> Scalar
    ensures { result.bytes ≡ s.bytes }
{
    from_bits_le(bits_le(s))
}

// Any 256 bits as bytes, and the bits again.
pub fn bits_again(bits: [bool; 256]) -> [bool; 256]
    ensures { result ≡ bits }
{
    bits_le(from_bits_le(bits))
}

// 32 bytes as four words, and the bytes again. The lengths are right, so that no call is refused.
pub fn by_words(s: Scalar) -> Scalar
    ensures { result.bytes ≡ s.bytes }
{
    let from = s.bytes;
    let mut words = [0u64; 4];
    let mut bytes = [0u8; 32];
    let _ = read_le_u64_into(&from, &mut words);
    let _ = write_le_u64_into(&words, &mut bytes);
    Scalar { bytes }
}

// Any four words as bytes, and the words again. The lengths are right here, too.
pub fn words_again(words: [u64; 4]) -> [u64; 4]
    ensures { result ≡ words }
{
    let mut bytes = [0u8; 32];
    let mut again = [0u64; 4];
    let _ = write_le_u64_into(&words, &mut bytes);
    let _ = read_le_u64_into(&bytes, &mut again);
    again
}
