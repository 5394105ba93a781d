// What is kept of the past: the clock of each event's closing word, 0 for never.
#![tactic(auto)]

ghost use Rattle.std.specs.Prelude.{◌≡◌, ◌<◌};
ghost use Rattle.stamps.specs.Stamps.{with_access, with_mode, with_refresh, remembered, next_stamps, never, start};
ghost use Rattle.stamps.specs.Stamps.{is_powered_down, is_exiting, next_met};

use basics::choose;
use command::Pair;
use command::address::bank;
use command::pins::{BA0, CS, FN, PD, high};

#[derive(Clone, Copy)]
pub struct Timestamps {
    // The first extended MRS word.
    pub extended: u32,
    // The last regular MRS word.
    pub regular: u32,
    // The last MRS word.
    pub mode: u32,
    // LAL of the last read, and of the last write.
    pub read: u32,
    pub write: u32,
    // LAL of the last read or write of each bank; with four banks the first four places are used.
    pub banks: [u32; 8],
    // The last eight REF words, newest first.
    pub refs: [u32; 8],
}

// The word that is sent where nothing else is.
pub const DESL: u32 = 0xC0000;

// What the next word meets is kept as one word: the first word of the open pair, which has CS low; where none is open, DESL for nothing,
// or one of these two. Asleep: the word before had PD low.
pub const POWERED_DOWN: u32 = 0x40000;

// The second of the two wake-up words is due.
const EXITING: u32 = 0xE0000;

impl Timestamps {
    // No event yet.
    pub fn never() -> Timestamps
        ensures { result ≡ never }
    {
        Timestamps {
            extended: 0,
            regular: 0,
            mode: 0,
            read: 0,
            write: 0,
            banks: [0; 8],
            refs: [0; 8],
        }
    }

    fn with_access(self, clock: u32, read: bool, bank: usize) -> Timestamps
        requires { bank < 8 }
        ensures { result ≡ with_access self clock read bank }
    {
        let mut banks = self.banks;
        banks[bank] = clock;
        Timestamps {
            read: choose(read, clock, self.read),
            write: choose(read, self.write, clock),
            banks,
            ..self
        }
    }

    fn with_mode(self, clock: u32, extended: bool) -> Timestamps
        ensures { result ≡ with_mode self clock extended }
    {
        Timestamps {
            extended: choose(extended & (self.extended == 0), clock, self.extended),
            regular: choose(extended, self.regular, clock),
            mode: clock,
            ..self
        }
    }

    fn with_refresh(self, clock: u32) -> Timestamps
        ensures { result ≡ with_refresh self clock }
    {
        let [r0, r1, r2, r3, r4, r5, r6, _] = self.refs;
        Timestamps {
            refs: [clock, r0, r1, r2, r3, r4, r5, r6],
            ..self
        }
    }

    // What is kept once a pair has closed at this clock, with four banks or eight.
    pub fn remembered(self, four: bool, clock: u32, pair: Pair) -> Timestamps
        ensures { result ≡ remembered four self clock pair.first pair.second }
    {
        let Pair { first, second } = pair;
        let rda = high(first, FN);
        let lal = high(second, CS);
        if lal {
            self.with_access(clock, rda, bank(four, first) as usize)
        } else if rda {
            self.with_mode(clock, high(second, BA0))
        } else {
            self.with_refresh(clock)
        }
    }

    // What is kept after a word, by what the word meets.
    pub fn after(self, four: bool, clock: u32, first: u32, word: u32) -> Timestamps
        ensures { result ≡ next_stamps four self clock first word }
    {
        if high(first, CS) {
            return self;
        }
        let pair = Pair {
            first,
            second: word,
        };
        self.remembered(four, clock, pair)
    }
}

// What is kept of the words before: the clock of the next one, what that one meets, and the events.
#[derive(Clone, Copy)]
pub struct Kept {
    pub clock: u32,
    // The first word of the open pair, which has CS low; or, with CS high, DESL for nothing, asleep if PD is low, the second wake-up word
    // due if PD and FN are high.
    pub met: u32,
    pub stamps: Timestamps,
}

impl Kept {
    // Before the first word.
    pub fn start() -> Kept
        ensures { result ≡ start }
    {
        Kept {
            clock: 0,
            met: DESL,
            stamps: Timestamps::never(),
        }
    }
}

// The memory is asleep: no pair is open, and PD was low.
pub fn is_powered_down(first: u32) -> bool
    ensures { result ≡ is_powered_down first }
{
    high(first, CS) & !high(first, PD)
}

// The second of the two wake-up words is due.
pub fn is_exiting(first: u32) -> bool
    ensures { result ≡ is_exiting first }
{
    high(first, CS) & (high(first, PD) & high(first, FN))
}

// What the word behind this one meets.
pub fn next_met(first: u32, word: u32) -> u32
    ensures { result ≡ next_met first word }
{
    if !high(first, CS) {
        DESL
    } else if !high(word, PD) {
        POWERED_DOWN
    } else if !high(word, CS) {
        word
    } else if is_powered_down(first) {
        EXITING
    } else {
        DESL
    }
}
