// A walk that is advanced until it does not pass.
ghost use Rattle.std.specs.Prelude.{◌≡◌};
ghost use Rattle.walks.specs.Walk.{progress_outcome, moved};
ghost use Rattle.bulk.specs.Walks.{is_pass, walk_from, walk_of};

use basics::Refusal;
use checker::Checker;
use config::Config;
use lending::advance_through;
use walks::{Moved, Progress};

fn passes(progress: Result<Progress, Refusal>) -> bool
    ensures { result ≡ is_pass (progress_outcome progress) }
{
    matches!(progress, Ok(Progress::Passed))
}

// At most so many advances.
fn walk_from(words: &[u32], checker: Checker, most: usize) -> Moved
    ensures { moved result ≡ walk_from most checker words.now }
{
    let mut now = checker;
    for _ in 0..most {
        let moved = advance_through(words, now);
        if !passes(moved.progress) {
            return moved;
        }
        now = moved.checker;
    }
    Moved {
        progress: Ok(Progress::Passed),
        checker: now,
    }
}

// A fresh walk, advanced at the latest once after its last word.
pub(crate) fn walk(config: Config, words: &[u32]) -> Moved
    ensures { moved result ≡ walk_of config words.now }
{
    walk_from(words, Checker::fresh(config), words.len() + 1)
}
