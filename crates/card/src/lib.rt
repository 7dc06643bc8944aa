#![tactic(auto)]
// The C interface, a static library: each exported function is one call, and here is what it promises. It returns its verdict's number
// and 256 times its position, and 0 is done. Every length is tried before anything else, and a refused call writes nothing.
ghost use Rattle.rules.specs.Forms.{card_n, card_r};
ghost use Rattle.calls.specs.Forms.{CardRecode, CardTest, CardRead};
ghost use Rattle.calls_scalars.specs.Scalars.{CardFromBits, CardIsOdd, CardSelect, CardZeroize};
ghost use Rattle.calls_bits_words.specs.Bits.{CardBits, CardFromBitBytes};
ghost use Rattle.calls_bits_words.specs.Words.{CardReadWords, CardWriteWords};

use calls::code::code_of;
use forms::{FormN, FormR};

// Whole scalars.
#[unsafe(no_mangle)]
pub extern "C" fn card_from_bits(bytes: &[u8], out: &mut [u8]) -> u64
    ensures { CardFromBits bytes.now out.old out.new result }
{
    code_of(calls_scalars::from_bits(bytes, out))
}

#[unsafe(no_mangle)]
pub extern "C" fn card_select(a: &[u8], b: &[u8], choice: u32, out: &mut [u8]) -> u64
    ensures { CardSelect a.now b.now choice out.old out.new result }
{
    code_of(calls_scalars::select(a, b, choice as u64, out))
}

#[unsafe(no_mangle)]
pub extern "C" fn card_is_odd(bytes: &[u8], out: &mut [u8]) -> u64
    ensures { CardIsOdd bytes.now out.old out.new result }
{
    code_of(calls_scalars::is_odd(bytes, out))
}

#[unsafe(no_mangle)]
pub extern "C" fn card_zeroize(buf: &mut [u8]) -> u64
    ensures { CardZeroize buf.old buf.new result }
{
    code_of(calls_scalars::zero_out(buf))
}

// Bits and words.
#[unsafe(no_mangle)]
pub extern "C" fn card_bits(bytes: &[u8], bits: &mut [u8]) -> u64
    ensures { CardBits bytes.now bits.old bits.new result }
{
    code_of(calls_bits_words::as_bits::bits(bytes, bits))
}

#[unsafe(no_mangle)]
pub extern "C" fn card_from_bit_bytes(bits: &[u8], out: &mut [u8]) -> u64
    ensures { CardFromBitBytes bits.now out.old out.new result }
{
    code_of(calls_bits_words::as_bits::from_bit_bytes(bits, out))
}

#[unsafe(no_mangle)]
pub extern "C" fn card_read_words(src: &[u8], dst: &mut [u64]) -> u64
    ensures { CardReadWords src.now dst.old dst.new result }
{
    code_of(calls_bits_words::as_words::read_words(src, dst))
}

#[unsafe(no_mangle)]
pub extern "C" fn card_write_words(src: &[u64], dst: &mut [u8]) -> u64
    ensures { CardWriteWords src.now dst.old dst.new result }
{
    code_of(calls_bits_words::as_words::write_words(src, dst))
}

// The recoders. C has no generics: each form has functions of its own, here and below.
#[unsafe(no_mangle)]
pub extern "C" fn card_n_recode(
    scalar: &[u8],
    width: usize,
    digits: &mut [i8],
    tally: &mut [u32],
) -> u64
    ensures { CardRecode (card_n width) scalar.now
        digits.old tally.old digits.new tally.new result }
{
    code_of(calls_digits::recode::<FormN, 256>(scalar, width, digits, tally))
}

#[unsafe(no_mangle)]
pub extern "C" fn card_r_recode(
    scalar: &[u8],
    width: usize,
    digits: &mut [i8],
    tally: &mut [u32],
) -> u64
    ensures { CardRecode (card_r width) scalar.now
        digits.old tally.old digits.new tally.new result }
{
    code_of(calls_digits::recode::<FormR, 64>(scalar, width, digits, tally))
}

// The tests.
#[unsafe(no_mangle)]
pub extern "C" fn card_n_test(digits: &[i8], width: usize) -> u64
    ensures { CardTest (card_n width) digits.now result }
{
    code_of(calls_digits::test::<FormN, 256>(digits, width))
}

#[unsafe(no_mangle)]
pub extern "C" fn card_r_test(digits: &[i8], width: usize) -> u64
    ensures { CardTest (card_r width) digits.now result }
{
    code_of(calls_digits::test::<FormR, 64>(digits, width))
}

// The readers.
#[unsafe(no_mangle)]
pub extern "C" fn card_n_read(digits: &[i8], width: usize, out: &mut [u8]) -> u64
    ensures { CardRead (card_n width) digits.now out.old out.new result }
{
    code_of(calls_digits::read::<FormN, 256>(digits, width, out))
}

#[unsafe(no_mangle)]
pub extern "C" fn card_r_read(digits: &[i8], width: usize, out: &mut [u8]) -> u64
    ensures { CardRead (card_r width) digits.now out.old out.new result }
{
    code_of(calls_digits::read::<FormR, 64>(digits, width, out))
}
