// The whole check of a trace that is handed over as bytes.
#![tactic(auto)]

mod idle;
mod pairs;
mod quick;
mod skim;
mod trace;

ghost use Rattle.std.specs.Prelude.{◌≡◌, ◌<◌};
ghost use Rattle.words.specs.Words.{words_of};
ghost use Rattle.rules.specs.Verdict.{judge, check_bytes_of};
ghost use Rattle.checker.specs.Steps.{judgement_of, verdict_outcome};
ghost use Rattle.bytecheck.specs.Passed.{next};

use basics::{LIMIT, Refusal};
use breaches::word_breach;
use checker::Breach;
use config::Config;
use stamps::{Kept, next_met};
use trace::Trace;

// Behind a word that breaches nothing, with four banks or eight.
fn behind(kept: Kept, four: bool, word: u32) -> Kept
    requires { kept.clock < 16777216 }
    ensures { result ≡ next four kept word }
{
    Kept {
        clock: kept.clock + 1,
        met: next_met(kept.met, word),
        stamps: kept.stamps.after(four, kept.clock, kept.met, word),
    }
}

impl Trace<'_> {
    // The breach of a trace, if it has one. Words that surely breach nothing are skimmed; the others are tested by every rule.
    fn judged(self) -> Option<Breach>
        ensures { judgement_of result ≡ judge self.entry.timing (words_of self.entry.bytes.now) }
    {
        let figures = self.timing.figures();
        let mut kept = Kept::start();
        while (kept.clock as usize) < self.bytes.len() / 4 {
            kept = self.skimmed(kept);
            let clock = kept.clock;
            if self.bytes.len() / 4 <= clock as usize {
                break;
            }
            let word = self.word(clock);
            if let Some(rule) = word_breach(self.timing, kept, word) {
                return Some(Breach {
                    clock,
                    number: rule.number(),
                });
            }
            kept = behind(kept, figures.four, word);
        }
        None
    }
}

// The verdict on a trace of little-endian bytes: the configuration's refusals, then 29 for bytes that are no whole words, then 24.
pub fn check_bytes(config: Config, bytes: &[u8]) -> Result<Option<Breach>, Refusal>
    ensures { verdict_outcome result ≡ check_bytes_of config bytes.now }
{
    let timing = config.timing()?;
    if bytes.len() % 4 != 0 {
        return Err(Refusal::PartialWord);
    }
    if bytes.len() / 4 > LIMIT as usize {
        return Err(Refusal::ClockLimit);
    }
    Ok(Trace { timing, bytes }.judged())
}
