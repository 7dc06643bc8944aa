#![tactic(auto)]
// R's table, width by width.
ghost use Rattle.std.specs.Prelude.{◌≡◌};
ghost use Rattle.rules.specs.Verdicts.{verdict_of};
ghost use Rattle.shape.specs.Shape.{ShapeOf, in_row};

use rules::Refusal;

// A row: the number of digits, the top of the last, and the power of two at which the range ends.
#[derive(Clone, Copy, Debug, PartialEq, Eq)]
pub struct Row {
    pub digits: usize,
    pub top: u32,
    pub bits: usize,
}

// A width of R's has this row.
fn row_of(digits: usize, top: u32, bits: usize) -> Row
    ensures { (result.digits ≡ digits) × (result.top ≡ top) × (result.bits ≡ bits) }
{
    Row { digits, top, bits }
}

// The row of a width; one that is not R's is refused.
pub fn shape(w: usize) -> Result<Row, Refusal>
    ensures { ShapeOf w (verdict_of result) (in_row result).digits (in_row result).top (in_row result).bits }
{
    match w {
        4 => Ok(row_of(64, 8, 255)),
        5 => Ok(row_of(52, 2, 256)),
        6 => Ok(row_of(43, 16, 256)),
        7 => Ok(row_of(37, 16, 256)),
        8 => Ok(row_of(33, 1, 256)),
        _ => Err(Refusal::WrongWidth),
    }
}
