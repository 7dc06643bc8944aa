// What only form R has: a caller who goes through the digits that count.
ghost use Rattle.std.specs.Prelude.{◌≡◌};
ghost use Rattle.acceptance.specs.Conditions.{Seen};

use crate::looked_at::nonzero_among;
use digits::recoding;
use forms::{DigitForm, FormR};
use scalar::Scalar;

// A recoder's answer, and how many of its digits are not 0 of those that its count reaches.
#[derive(Clone, Copy)]
pub struct Looked {
    pub made: recoding::Recoding<64>,
    pub seen: usize,
}

// A caller's loop over the digits that count misses none.
pub fn look(s: Scalar, w: usize) -> Looked
    ensures { Seen w s.bytes result.made.verdict result.made.digits result.made.count result.seen × (result.made.additions ≡ 0) }
{
    let made = FormR::recode(s, w);
    let seen = nonzero_among(&made.digits, made.count);
    Looked { made, seen }
}
