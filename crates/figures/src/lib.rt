#![tactic(auto)]
// What the programs of the two forms' figures share: the scalars and the strings that they try, and what a form answers for one. Nothing here is part of the library.
ghost use Rattle.std.specs.Prelude.{◌≡◌, [], ◌∷◌, ◌++◌, replicate, set, pos};
ghost use Rattle.rules.specs.Promises.{Recodes, Reads};
ghost use Rattle.rules.specs.Test.{verdict};
ghost use Rattle.rules.specs.Verdicts.{verdict_of};
ghost use Rattle.scalar.specs.Answers.{bytes_of};

use digits::recoding::Recoding;
use forms::DigitForm;
use rules::{Refusal, Verdict};
use scalar::Scalar;
use show::{Hex, NonZeros, Numbers};
use std::fmt;

// A digit string tested and read at a width.
#[derive(Clone, Copy)]
pub struct Tried {
    pub tested: Verdict,
    pub read: Result<Scalar, Refusal>,
}

// Both verdicts, and the bytes; a refused string reads as zero bytes.
impl fmt::Display for Tried {
    fn fmt<W: fmt::Write>(&self, f: &mut fmt::Formatter<W>) -> fmt::Result {
        let tested = Numbers {
            verdict: self.tested,
        };
        let read = Numbers {
            verdict: self.read.and(Ok(())),
        };
        let scalar = self.read.unwrap_or(Scalar::ZERO);
        let bytes = Hex {
            bytes: &scalar.bytes,
        };
        write!(f, "{tested} {read} {bytes}")
    }
}

// What a recoder answers, and its digits tried at a width.
#[derive(Clone, Copy)]
pub struct Figure<const LEN: usize> {
    pub made: Recoding<LEN>,
    pub tried: Tried,
}

// The verdict, the count, the additions, the digits that are not 0, and what became of the digits.
impl<const LEN: usize> fmt::Display for Figure<LEN> {
    fn fmt<W: fmt::Write>(&self, f: &mut fmt::Formatter<W>) -> fmt::Result {
        let verdict = Numbers {
            verdict: self.made.verdict,
        };
        let count = self.made.count;
        let additions = self.made.additions;
        let digits = NonZeros {
            digits: &self.made.digits,
        };
        let tried = self.tried;
        write!(f, "{verdict} {count} {additions} {digits}read {tried}")
    }
}

// A digit string tested and read at a width.
pub fn tested_and_read<F: DigitForm<LEN>, const LEN: usize>(digits: &[i8], w: usize) -> Tried
    ensures tested { result.tested ≡ verdict (F.form w) digits.now }
    ensures read { Reads (F.form w) digits.now (verdict_of result.read) (bytes_of result.read) }
{
    Tried {
        tested: F::test(digits, w),
        read: F::read(digits, w),
    }
}

// A recoder's answer, and its digits tried at a width.
pub fn of_recoding<F: DigitForm<LEN>, const LEN: usize>(
    made: Recoding<LEN>,
    w: usize,
) -> Figure<LEN>
    ensures made { result.made ≡ made.entry }
    ensures tested { result.tried.tested ≡ verdict (F.form w) made.entry.digits }
    ensures read { Reads (F.form w) made.entry.digits (verdict_of result.tried.read) (bytes_of result.tried.read) }
{
    let tried = tested_and_read::<F, LEN>(&made.digits, w);
    Figure { made, tried }
}

// A scalar recoded at a width, and its digits tried there.
pub fn recoded<F: DigitForm<LEN>, const LEN: usize>(s: Scalar, w: usize) -> Figure<LEN>
    ensures recoded { Recodes (F.form w) s.bytes result.made.verdict result.made.digits result.made.count result.made.additions }
    ensures tested { result.tried.tested ≡ verdict (F.form w) result.made.digits }
    ensures read { Reads (F.form w) result.made.digits (verdict_of result.tried.read) (bytes_of result.tried.read) }
{
    of_recoding::<F, LEN>(F::recode(s, w), w)
}

// The scalar whose lowest byte is `byte`, and every other byte 0.
pub fn lowest(byte: u8) -> Scalar
    ensures { result.bytes ≡ byte ∷ replicate 31 0 }
{
    let mut bytes = [0u8; 32];
    bytes[0] = byte;
    Scalar { bytes }
}

// The scalar whose top byte is `top`, and every other byte `rest`.
pub fn topped(rest: u8, top: u8) -> Scalar
    ensures { result.bytes ≡ replicate 31 rest ++ (top ∷ []) }
{
    let mut bytes = [rest; 32];
    bytes[31] = top;
    Scalar { bytes }
}

// The edges of the two ranges: a name, and the bytes of `topped`.
pub const EDGES: [(&str, u8, u8); 3] = [
    ("2^255-1", 255, 127),
    ("2^255", 0, 128),
    ("2^256-1", 255, 255),
];

// The digits with d at index i; an index past them names none.
fn placed(digits: [i8; 257], i: usize, d: i8) -> [i8; 257]
    ensures { result ≡ set digits i d }
{
    if 257 <= i {
        return digits;
    }
    let mut all = digits;
    all[i] = d;
    all
}

// 257 digits, all 0 but d at index i, and then e at index j. An index past them names none.
pub fn laid(i: usize, d: i8, j: usize, e: i8) -> [i8; 257]
    ensures { result ≡ set (set (replicate 257 (pos 0)) i d) j e }
{
    placed(placed([0i8; 257], i, d), j, e)
}
