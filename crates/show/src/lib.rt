#![tactic(auto)]
// How the test programs print: words, numbers, bytes and verdicts, a piece at a time. Nothing here is part of the library.
// What a function answers is whether the piece could be written.
use rules::Verdict;
use std::{fmt, io};

// Bytes in hexadecimal, the lowest first.
#[derive(Clone, Copy)]
pub struct Hex<'a> {
    pub bytes: &'a [u8],
}

impl fmt::Display for Hex<'_> {
    fn fmt<W: fmt::Write>(&self, f: &mut fmt::Formatter<W>) -> fmt::Result {
        for byte in self.bytes {
            write!(f, "{byte:02x}")?;
        }
        Ok(())
    }
}

// The digits that are not 0, from the lowest index: the index, a colon, the digit, and a space.
#[derive(Clone, Copy)]
pub struct NonZeros<'a> {
    pub digits: &'a [i8],
}

impl fmt::Display for NonZeros<'_> {
    fn fmt<W: fmt::Write>(&self, f: &mut fmt::Formatter<W>) -> fmt::Result {
        for (i, d) in self.digits.iter().enumerate() {
            if *d != 0 {
                write!(f, "{i}:{d} ")?;
            }
        }
        Ok(())
    }
}

// A verdict: its number and its position.
#[derive(Clone, Copy)]
pub struct Numbers {
    pub verdict: Verdict,
}

impl fmt::Display for Numbers {
    fn fmt<W: fmt::Write>(&self, f: &mut fmt::Formatter<W>) -> fmt::Result {
        let (number, position) = match self.verdict {
            Ok(()) => (0, 0),
            Err(refusal) => (refusal.number(), refusal.position()),
        };
        write!(f, "{number} {position}")
    }
}

// A piece of text, then a space.
pub fn text(rt: &impl Print, t: &[u8]) -> io::Result<()> {
    rt.write_all(t)?;
    rt.write_all(b" ")
}

// The end of a line.
pub fn end(rt: &impl Print) -> io::Result<()> {
    rt.write_all(b"\n")
}

// A number in decimal, then a space.
pub fn number(rt: &impl Print, n: u64) -> io::Result<()> {
    print!(rt; "{n} ")
}

// A verdict: its number and its position.
pub fn verdict(rt: &impl Print, verdict: Verdict) -> io::Result<()> {
    print!(rt; "{} ", Numbers { verdict })
}

// A bool as 0 or 1, and nothing after it.
pub fn bit(rt: &impl Print, b: bool) -> io::Result<()> {
    if b {
        rt.write_all(b"1")
    } else {
        rt.write_all(b"0")
    }
}

// Bits as 0 and 1, the lowest first, then a space.
pub fn bits(rt: &impl Print, b: &[bool]) -> io::Result<()> {
    for set in b {
        bit(rt, *set)?;
    }
    text(rt, b"")
}

// Bytes in hexadecimal, the lowest first, then a space.
pub fn bytes(rt: &impl Print, bytes: &[u8]) -> io::Result<()> {
    print!(rt; "{} ", Hex { bytes })
}

// Words in hexadecimal, a space after each.
pub fn words(rt: &impl Print, w: &[u64]) -> io::Result<()> {
    for word in w {
        print!(rt; "{word:016x} ")?;
    }
    Ok(())
}

// The digits that are not 0, from the lowest index: the index, a colon, the digit, and a space.
pub fn string(rt: &impl Print, digits: &[i8]) -> io::Result<()> {
    print!(rt; "{}", NonZeros { digits })
}
