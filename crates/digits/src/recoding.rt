// What a recoder of either form answers.
ghost use Rattle.std.specs.Prelude.{◌≡◌, replicate, pos};
ghost use Rattle.rules.specs.Verdicts.{Done};

use rules::{Refusal, Verdict};

// The digits, the lowest first, with their count and their additions. A record and no enum: a refused call answers with digits too, all of them 0.
// The count is no length: every entry is there, and document 01 has it as a figure of its own.
#[derive(Clone, Copy)]
pub struct Recoding<const N: usize> {
    pub verdict: Verdict,
    pub digits: [i8; N],
    pub count: usize,
    pub additions: usize,
}

impl<const N: usize> Recoding<N> {
    // The answer of a call that is done.
    pub fn done(digits: [i8; N], count: usize, additions: usize) -> Recoding<N>
        ensures { (result.verdict ≡ Done) × (result.digits ≡ digits.entry) × (result.count ≡ count) × (result.additions ≡ additions) }
    {
        Recoding {
            verdict: Ok(()),
            digits,
            count,
            additions,
        }
    }

    // The answer of a refused call: no digits.
    pub fn refused(refusal: Refusal) -> Recoding<N>
        ensures { (result.verdict ≡ Err refusal) × (result.digits ≡ replicate N (pos 0)) × (result.count ≡ 0) × (result.additions ≡ 0) }
    {
        Recoding {
            verdict: Err(refusal),
            digits: [0i8; N],
            count: 0,
            additions: 0,
        }
    }
}
