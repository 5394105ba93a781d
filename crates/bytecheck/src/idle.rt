// Words that breach nothing and change nothing: DESL, a whole sleep, and in sleep those with PD low.
ghost use Rattle.std.specs.Prelude.{◌≤◌, ◌<◌, ◌/◌, length};
ghost use Rattle.words.specs.Words.{words_of};
ghost use Rattle.bytecheck.specs.Quick.{RunPassed, IdlePassed, LowPassed};

use crate::pairs::DESLS;
use crate::trace::Trace;
use breaches::must_stay_high;
use command::pins::CS;
use runs::Upper;
use stamps::Timestamps;

// The words with PD low: the pin stands above 19 bits.
const LOW: Upper = Upper { shift: 19, top: 0 };

impl Trace<'_> {
    // Passes over the words from a clock on that stand before `end` and agree.
    fn past_run(self, clock: u32, end: u64, upper: Upper) -> u32
        requires { end ≤ length self.bytes.now / 4 }
        ensures { (clock ≤ result) × RunPassed upper.shift upper.top end (words_of self.entry.bytes.now) clock result }
    {
        runs::past_run(
            self.bytes,
            clock as usize,
            end as usize,
            upper.shift,
            upper.top,
        ) as u32
    }

    // Passes over a whole sleep: the word at the clock, which goes low, those with PD low behind it, and the two wake-up words. The clock
    // itself where it is not sure that these breach nothing.
    #[tactic(auto, using(crate::proofs::Passing::stays))]
    fn past_power_down(self, stamps: Timestamps, clock: u32, end: u64) -> u32
        requires { (end ≤ length self.bytes.now / 4) × (clock < end) }
        ensures { (clock ≤ result) × IdlePassed self.entry.timing stamps end (words_of self.entry.bytes.now) clock result }
    {
        let word = self.word(clock);
        if word / CS != 1 {
            return clock;
        }
        if must_stay_high(self.timing, stamps, clock) {
            return clock;
        }
        let at = self.past_run(clock + 1, end, LOW);
        if end < u64::from(at) + 2 {
            return clock;
        }
        let first_exit = self.word(at);
        let second_exit = self.word(at + 1);
        if (first_exit / CS != 3) | (second_exit / CS != 3) {
            return clock;
        }
        at + 2
    }

    // Passes over the DESL words before `end` from the clock on, or over the sleep that begins there. The clock itself where neither does.
    #[tactic(auto, using(crate::proofs::Passing::stays))]
    pub(crate) fn past_idle(self, stamps: Timestamps, clock: u32, end: u64) -> u32
        requires { end ≤ length self.bytes.now / 4 }
        ensures { (clock ≤ result) × IdlePassed self.entry.timing stamps end (words_of self.entry.bytes.now) clock result }
    {
        if end <= u64::from(clock) {
            return clock;
        }
        let word = self.word(clock);
        if word / CS == 3 {
            self.past_run(clock, end, DESLS)
        } else {
            self.past_power_down(stamps, clock, end)
        }
    }

    // Passes over the words with PD low from a clock on where the memory is asleep, as long as rule 3 is kept.
    pub(crate) fn past_low(self, stamps: Timestamps, clock: u32) -> u32
        ensures { LowPassed self.entry.timing stamps (words_of self.entry.bytes.now) clock result }
    {
        let end = self.in_time(stamps);
        self.past_run(clock, end, LOW)
    }
}
