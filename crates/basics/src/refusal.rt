// The refusals of the whole product, each by its number in section 6 of RULES.
ghost use Rattle.std.specs.Prelude.{◌≡◌, Some};
ghost use Rattle.basics.specs.Numbers.{refusal_number};
ghost use Rattle.basics.specs.Answers.{refusal_text};

use std::error::Error;
use std::fmt;

#[derive(Clone, Copy, Debug, PartialEq, Eq)]
pub enum Refusal {
    // The state has one of the faults of RULES 6.19, which no call gives it.
    State = 19,
    // Grade, CL, BL or organisation.
    Part = 20,
    // The period.
    Period = 21,
    // A count of clocks out of its range.
    Count = 22,
    // The checker is already in breach.
    InBreach = 23,
    // The clock limit, 16,777,216, is reached or exceeded.
    ClockLimit = 24,
    // More than 65,536 bytes for the marker program.
    InputSize = 25,
    // A field of a request or operation out of range.
    Field = 26,
    // Sixteen requests wait.
    QueueFull = 27,
    // Two words that are no sound pair.
    NotAPair = 28,
    // Bytes that are not a multiple of four.
    PartialWord = 29,
    // More than 65,536 words to count.
    TooLong = 30,
    // More than 16,777,216 words to time.
    WordCount = 32,
    // REFC below 18 at CL 4.
    ShortRefresh = 33,
    // A wiring other than 4 or 8.
    Wiring = 34,
    // Two sheets that differ outside the period and the counts, or a least number above its greatest.
    Limits = 35,
}

impl Refusal {
    // Its number in section 6 of RULES.
    pub fn number(self) -> u32
        ensures { result ≡ refusal_number self }
    {
        self as u32
    }
}

impl fmt::Display for Refusal {
    ghost output = { λ why. Some (refusal_text why) };

    fn fmt<W: fmt::Write>(&self, f: &mut fmt::Formatter<W>) -> fmt::Result {
        write!(f, "refused {}", self.number())
    }
}

impl Error for Refusal {}
