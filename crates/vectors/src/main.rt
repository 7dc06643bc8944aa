#![tactic(auto)]
// Replays a list of the original's answers, so that nobody needs Rust to compare. Each line of the list, the file `stdin`, names a
// function by a letter, then a width or a choice in one figure, then the 32 bytes in hexadecimal, byte 0 first. The file `stdout` holds
// what the original answered. tools/expect-vectors made both files; it built the original's own functions with rustc and called them.
ghost use Rattle.std.specs.Prelude.{◌<◌};

use scalar::Scalar;
use std::io::Read;
use std::{array, io};

// The value of a hexadecimal digit in small letters; any other character has 0, a capital letter too, which the library's `to_digit` would take.
fn value(c: u8) -> u8
    ensures { result < 16 }
{
    match c {
        b'0'..=b'9' => c - b'0',
        b'a'..=b'f' => c - b'a' + 10,
        _ => 0,
    }
}

// The 32 bytes of a line.
fn bytes_of(line: &[u8; 69]) -> [u8; 32] {
    array::from_fn(|k| 16 * value(line[2 * k + 4]) + value(line[2 * k + 5]))
}

// The digits, and before them how many are in use, as the original's size hint has it.
fn radix(rt: &impl Print, s: Scalar, w: usize) -> io::Result<()> {
    let r = radix::recode::as_radix_2w(s, w);
    show::number(rt, r.count as u64)?;
    show::string(rt, &r.digits)
}

// The verdict too: the original has none.
fn words(rt: &impl Print, bytes: [u8; 32]) -> io::Result<()> {
    let mut w = [0u64; 4];
    show::verdict(rt, words::read_le_u64_into(&bytes, &mut w))?;
    show::words(rt, &w)
}

// The scalar or, at choice 1, the scalar modulo 2^255.
fn select(rt: &impl Print, s: Scalar, choice: u64) -> io::Result<()> {
    let r = scalar::select::conditional_select(s, Scalar::from_bits(s.bytes), choice);
    show::bytes(rt, &r.unwrap_or(Scalar::ZERO).bytes)
}

// What the function of a letter answers.
fn answer(rt: &impl Print, letter: u8, figure: u8, bytes: [u8; 32]) -> io::Result<()> {
    let s = Scalar { bytes };
    match letter {
        b'N' => show::string(
            rt,
            &naf::recode::non_adjacent_form(s, figure as usize).digits,
        ),
        b'R' => radix(rt, s, figure as usize),
        b'F' => show::bytes(rt, &Scalar::from_bits(bytes).bytes),
        b'B' => show::bits(rt, &bits::bits_le(s)),
        b'W' => words(rt, bytes),
        b'O' => show::bits(rt, &[s.is_odd()]),
        b'S' => select(rt, s, figure as u64),
        _ => show::text(rt, b"unknown"),
    }
}

// Every whole line, a thousand at most.
fn main(rt: HostRuntime) -> io::Result<()> {
    let mut reader = rt.reader();
    let mut line = [0u8; 69];
    for _ in 0..1000 {
        if reader.read_exact(&mut line).is_err() {
            break;
        }
        show::text(&rt, &line[..3])?;
        answer(&rt, line[0], value(line[2]), bytes_of(&line))?;
        show::end(&rt)?;
    }
    Ok(())
}
