#![tactic(auto)]
// Runs the functions of `scalar` on edges, and prints what they answer.
// The file `stdout` beside src/ was worked out by tools/expect-scalar-edges, in Python integers, without this library.
use scalar::Scalar;
use std::{array, io};

// Every function on one scalar: reduced, odd or not, its bits, and those read back.
fn one_scalar(rt: &impl Print, name: &[u8], bytes: [u8; 32]) -> io::Result<()> {
    show::text(rt, name)?;
    show::bytes(rt, &Scalar::from_bits(bytes).bytes)?;
    let s = Scalar { bytes };
    show::bits(rt, &[s.is_odd()])?;
    let bits = bits::bits_le(s);
    show::bits(rt, &bits)?;
    show::bytes(rt, &bits::from_bits_le(bits).bytes)?;
    show::end(rt)
}

fn scalars(rt: &impl Print) -> io::Result<()> {
    let zero = [0u8; 32];
    let ones = [255u8; 32];
    one_scalar(rt, b"0", zero)?;
    one_scalar(rt, b"1", Scalar::one().bytes)?;
    let mut below = ones;
    below[31] = 127;
    one_scalar(rt, b"2^255-1", below)?;
    let mut half = zero;
    half[31] = 128;
    one_scalar(rt, b"2^255", half)?;
    one_scalar(rt, b"2^256-1", ones)
}

// A choice between 1 and 2^256-1.
fn choose(rt: &impl Print, choice: u64) -> io::Result<()> {
    show::text(rt, b"select")?;
    show::number(rt, choice)?;
    let ones = Scalar { bytes: [255u8; 32] };
    let chosen = scalar::select::conditional_select(Scalar::ONE, ones, choice);
    show::verdict(rt, chosen.map(|_| ()))?;
    show::bytes(rt, &chosen.unwrap_or(Scalar::ZERO).bytes)?;
    show::end(rt)
}

// The first n bytes of a buffer after `zeroize`, and what stands behind them.
fn wipe(rt: &impl Print, n: usize) -> io::Result<()> {
    let mut buf = [7u8; 40];
    if n > buf.len() {
        return Ok(());
    }
    show::text(rt, b"zeroize")?;
    show::number(rt, n as u64)?;
    show::verdict(rt, scalar::zeroize::zeroize(&mut buf[..n]))?;
    show::bytes(rt, &buf)?;
    show::end(rt)
}

// A call's name and its two lengths.
fn begin(rt: &impl Print, name: &[u8], a: usize, b: usize) -> io::Result<()> {
    show::text(rt, name)?;
    show::number(rt, a as u64)?;
    show::number(rt, b as u64)
}

// The first n bytes of 1, 2, 3 and so on, read into the first k words of a destination.
fn read_words(rt: &impl Print, n: usize, k: usize) -> io::Result<()> {
    let src: [u8; 33] = array::from_fn(|i| i as u8 + 1);
    let mut dst = [7u64; 5];
    if n > src.len() || k > dst.len() {
        return Ok(());
    }
    begin(rt, b"read", n, k)?;
    show::verdict(rt, words::read_le_u64_into(&src[..n], &mut dst[..k]))?;
    show::words(rt, &dst)?;
    show::end(rt)
}

// The first k words of a source written into the first n bytes of a destination.
fn write_words(rt: &impl Print, k: usize, n: usize) -> io::Result<()> {
    let src = [
        0xF00F_F11F_0110_EFFEu64,
        0xF0DE_BC9A_7856_3412,
        0,
        1,
        0xFFFF_FFFF_FFFF_FFFF,
    ];
    let mut dst = [7u8; 40];
    if k > src.len() || n > dst.len() {
        return Ok(());
    }
    begin(rt, b"write", k, n)?;
    show::verdict(rt, words::write_le_u64_into(&src[..k], &mut dst[..n]))?;
    show::bytes(rt, &dst)?;
    show::end(rt)
}

// A source of the original's own test of `read_le_u64_into`, and its words.
fn original_words(rt: &impl Print, src: &[u8], dst: &mut [u64]) -> io::Result<()> {
    show::text(rt, b"original")?;
    show::verdict(rt, words::read_le_u64_into(src, dst))?;
    show::words(rt, dst)?;
    show::end(rt)
}

// Both of its cases.
fn original(rt: &impl Print) -> io::Result<()> {
    original_words(rt, b"\xFE\xEF\x10\x01\x1F\xF1\x0F\xF0", &mut [0u64; 1])?;
    original_words(
        rt,
        b"\xFE\xEF\x10\x01\x1F\xF1\x0F\xF0\x12\x34\x56\x78\x9A\xBC\xDE\xF0",
        &mut [0u64; 2],
    )
}

fn main(rt: HostRuntime) -> io::Result<()> {
    scalars(&rt)?;
    for choice in [
        0u64,
        1,
        2,
        0x1_0000_0000,
        0x1_0000_0001,
        0xFFFF_FFFF_FFFF_FFFF,
    ] {
        choose(&rt, choice)?;
    }
    for n in [0usize, 7, 8, 9, 31, 32, 33] {
        wipe(&rt, n)?;
    }
    for (n, k) in [
        (0usize, 0usize),
        (0, 1),
        (7, 1),
        (8, 1),
        (9, 1),
        (31, 4),
        (32, 4),
        (33, 4),
        (32, 5),
        (32, 3),
    ] {
        read_words(&rt, n, k)?;
    }
    for (k, n) in [
        (0usize, 0usize),
        (0, 1),
        (1, 7),
        (1, 8),
        (1, 9),
        (4, 31),
        (4, 32),
        (4, 33),
        (5, 40),
    ] {
        write_words(&rt, k, n)?;
    }
    original(&rt)
}
