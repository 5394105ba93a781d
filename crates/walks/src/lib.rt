// One advance of a walk over lent words (RULES 5.5), for whoever holds the words and the checker that it has reached.
#![tactic(auto)]

ghost use Rattle.std.specs.Prelude.{◌≡◌};
ghost use Rattle.checker.specs.Steps.{verdict_outcome};
ghost use Rattle.walks.specs.Walk.{progress_outcome, of_word, at_end, MovePromised};

use basics::Refusal;
use checker::{Breach, Checker, Stepped};
use consistency::clock_fits;

// What an advance that is not refused reaches.
#[derive(Clone, Copy, Debug, PartialEq, Eq)]
pub enum Progress {
    Passed,
    InBreach(Breach),
    End,
}

// What an advance answers, and the checker that it leaves.
#[derive(Clone, Copy)]
pub struct Moved {
    pub progress: Result<Progress, Refusal>,
    pub checker: Checker,
}

// What the verdict on a single word is in a walk.
fn of_word(verdict: Result<Option<Breach>, Refusal>) -> Result<Progress, Refusal>
    ensures { progress_outcome result ≡ of_word (verdict_outcome verdict) }
{
    let breach = verdict?;
    Ok(breach.map_or(Progress::Passed, Progress::InBreach))
}

// What an advance answers with no word left.
fn at_end(checker: Checker) -> Result<Progress, Refusal>
    ensures { progress_outcome result ≡ at_end checker }
{
    checker.config.timing()?;
    if !clock_fits(checker.kept()) {
        return Err(Refusal::State);
    }
    Ok(Progress::End)
}

// Examines the word at the checker's clock: the configuration's refusals and 19, then end where no word is left, then 23 and 24. The
// checker comes back, one clock on if the word passed.
pub fn next_word(words: &[u32], checker: Checker) -> Moved
    ensures { MovePromised checker words.now result }
{
    match words.get(checker.clock as usize) {
        Some(&word) => {
            let Stepped { verdict, checker } = checker.step(word);
            Moved {
                progress: of_word(verdict),
                checker,
            }
        }
        None => Moved {
            progress: at_end(checker),
            checker,
        },
    }
}
