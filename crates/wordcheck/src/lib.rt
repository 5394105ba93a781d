// The whole check of a trace: one pass, and the configuration and the length are tested once, before it.
#![tactic(auto)]

ghost use Rattle.std.specs.Prelude.{◌≡◌, ◌≤◌, length};
ghost use Rattle.rules.specs.Verdict.{judge, check_of};
ghost use Rattle.checker.specs.Steps.{judgement_of, verdict_outcome};

use basics::{LIMIT, Refusal};
use breaches::word_breach;
use checker::Breach;
use config::{Config, Timing};
use stamps::{Kept, next_met};

fn judged(timing: Timing, words: &[u32]) -> Option<Breach>
    requires { length words.now ≤ 16777216 }
    ensures { judgement_of result ≡ judge timing words.now }
{
    let figures = timing.figures();
    let mut kept = Kept::start();
    for &word in words {
        if let Some(rule) = word_breach(timing, kept, word) {
            return Some(Breach {
                clock: kept.clock,
                number: rule.number(),
            });
        }
        kept = Kept {
            clock: kept.clock + 1,
            met: next_met(kept.met, word),
            stamps: kept.stamps.after(figures.four, kept.clock, kept.met, word),
        };
    }
    None
}

// The verdict on a trace: the configuration's refusals, then 24 for more than 16,777,216 words.
pub fn check(config: Config, words: &[u32]) -> Result<Option<Breach>, Refusal>
    ensures { verdict_outcome result ≡ check_of config words.now }
{
    let timing = config.timing()?;
    if words.len() > LIMIT as usize {
        return Err(Refusal::ClockLimit);
    }
    Ok(judged(timing, words))
}
