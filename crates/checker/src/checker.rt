// The checker (the paper's examiner): a state that takes one word after the other.
ghost use Rattle.std.specs.Prelude.{◌≡◌};
ghost use Rattle.checker.specs.Steps.{fresh, stepped, step_of};

use basics::{LIMIT, Refusal};
use breaches::word_breach;
use config::Config;
use consistency::clock_fits;
use stamps::{Kept, Timestamps, next_met};

// The clock and the number of a breach; number 0 where there is none.
#[derive(Clone, Copy, Debug, PartialEq, Eq)]
pub struct Breach {
    pub clock: u32,
    pub number: u32,
}

#[derive(Clone, Copy)]
pub struct Checker {
    pub config: Config,
    // The clock of the next word.
    pub clock: u32,
    // What the next word meets: the first word of the open pair, which has CS low; or, with CS high, asleep if PD is low, the second
    // wake-up word due if PD and FN are high, nothing if PD is high and FN low.
    pub met: u32,
    pub stamps: Timestamps,
    pub breach: Breach,
}

// What a step answers, and the checker that it leaves. The verdict is the word's breach, None if the word passes, or a refusal.
#[derive(Clone, Copy)]
pub struct Stepped {
    pub verdict: Result<Option<Breach>, Refusal>,
    pub checker: Checker,
}

impl Checker {
    // A fresh checker, on any configuration.
    pub fn fresh(config: Config) -> Checker
        ensures { result ≡ fresh config }
    {
        let Kept { clock, met, stamps } = Kept::start();
        Checker {
            config,
            clock,
            met,
            stamps,
            breach: Breach {
                clock: 0,
                number: 0,
            },
        }
    }

    // What it keeps of the words before.
    pub fn kept(self) -> Kept
        ensures { result ≡ record { clock = self.clock; met = self.met; stamps = self.stamps } }
    {
        Kept {
            clock: self.clock,
            met: self.met,
            stamps: self.stamps,
        }
    }

    // A step, whose checker is this one afterwards.
    fn take(&mut self, word: u32) -> Result<Option<Breach>, Refusal>
        ensures { stepped (record { verdict = result; checker = self.new }) ≡ step_of self.old word }
    {
        let timing = self.config.timing()?;
        if !clock_fits(self.kept()) {
            return Err(Refusal::State);
        }
        if self.breach.number != 0 {
            return Err(Refusal::InBreach);
        }
        if LIMIT <= self.clock {
            return Err(Refusal::ClockLimit);
        }
        if let Some(rule) = word_breach(timing, self.kept(), word) {
            self.breach = Breach {
                clock: self.clock,
                number: rule.number(),
            };
            return Ok(Some(self.breach));
        }
        self.stamps = self
            .stamps
            .after(timing.figures().four, self.clock, self.met, word);
        self.met = next_met(self.met, word);
        self.clock += 1;
        Ok(None)
    }

    // Examines one word: the configuration's refusals, then 19, 23 and 24; otherwise the word passes or is the first breach.
    pub fn step(mut self, word: u32) -> Stepped
        ensures { stepped result ≡ step_of self word }
    {
        let verdict = self.take(word);
        Stepped {
            verdict,
            checker: self,
        }
    }
}
