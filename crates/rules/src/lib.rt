#![tactic(auto)]
// The verdicts of document 01. Its rules stand in specs/ as definitions, and the laws about them in proofs/.
ghost use Rattle.std.specs.Prelude.{◌≡◌};
ghost use Rattle.rules.specs.Verdicts.{number, position};

// Why an entry says no: the refusals of 01's table, in the table's order.
#[derive(Clone, Copy, Debug, PartialEq, Eq)]
pub enum Refusal {
    // 1: a slice or the program's input has the wrong length
    WrongLength,
    // 2: the form letter is not one of the program's
    WrongForm,
    // 3: the width is not one of the form's
    WrongWidth,
    // 4: byte 31 is above 127 where the form leaves no room for it
    TooWide,
    // 5: the digit at this index breaks its own rule
    BrokenDigit(usize),
    // 6: the digit at this index is not zero and follows another too closely
    Crowded(usize),
    // 7: the weighted sum is negative
    Negative,
    // 8: the weighted sum is at or past the range's end
    PastEnd,
    // 9: a choice is neither 0 nor 1
    WrongChoice,
}

// What an entry answers: done, or a refusal.
pub type Verdict = Result<(), Refusal>;

impl Refusal {
    // The refusal's number in 01's table. By a match: `as` takes no enum of which a case holds something.
    pub fn number(self) -> u8
        ensures { result ≡ number (Err self) }
    {
        match self {
            Refusal::WrongLength => 1,
            Refusal::WrongForm => 2,
            Refusal::WrongWidth => 3,
            Refusal::TooWide => 4,
            Refusal::BrokenDigit(_) => 5,
            Refusal::Crowded(_) => 6,
            Refusal::Negative => 7,
            Refusal::PastEnd => 8,
            Refusal::WrongChoice => 9,
        }
    }

    // The refusal's position: the digit's index for 5 and 6, and 0 for all others.
    pub fn position(self) -> usize
        ensures { result ≡ position (Err self) }
    {
        match self {
            Refusal::BrokenDigit(i) => i,
            Refusal::Crowded(i) => i,
            _ => 0,
        }
    }
}
