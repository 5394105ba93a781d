// A walk over lent words (RULES 5.5): an advance judges the next one.
#![tactic(auto)]

ghost use Rattle.cursor.specs.Cursor.{AdvancePromised, NewPromised};

use basics::Refusal;
use checker::Checker;
use config::Config;
use walks::{Moved, Progress, next_word};

// The words stay the caller's; the clock that the walk has reached is the checker's.
#[derive(Clone, Copy)]
pub struct TraceCursor<'a> {
    pub words: &'a [u32],
    pub checker: Checker,
}

// A fresh walk over the words, on any configuration.
pub fn new(words: &[u32], config: Config) -> TraceCursor<'_>
    ensures { NewPromised words.entry config result }
{
    TraceCursor {
        words,
        checker: Checker::fresh(config),
    }
}

// Examines one more word. The walk is left with the same words, and with the checker that `next_word` gives.
pub fn advance(cursor: &mut TraceCursor<'_>) -> Result<Progress, Refusal>
    ensures { AdvancePromised cursor.old result cursor.new }
{
    let Moved { progress, checker } = next_word(cursor.words, cursor.checker);
    cursor.checker = checker;
    progress
}
