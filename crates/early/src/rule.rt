// The published rules by their numbers.
ghost use Rattle.std.specs.Prelude.{◌≡◌};
ghost use Rattle.early.specs.Answers.{rule_number};

// A rule that a word breaches, by its number in section 4 of RULES.
#[derive(Clone, Copy, Debug, PartialEq, Eq)]
pub enum Rule {
    StrayBit = 1,
    // PD goes low where it may not.
    LowPd = 2,
    RefreshOverdue = 3,
    WrongMode = 4,
    ReservedLane = 5,
    // A read or write before readiness.
    NotReady = 6,
    SameBank = 7,
    TooClose = 8,
    AfterMode = 9,
    AfterRefresh = 10,
    // A mode or refresh too soon after a read or write.
    Busy = 11,
    RefreshWindow = 12,
    // CS is low in a wake-up word.
    SelectedAtExit = 13,
}

impl Rule {
    pub fn number(self) -> u32
        ensures { result ≡ rule_number self }
    {
        self as u32
    }
}
