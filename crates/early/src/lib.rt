// The rules by their numbers, and rules 1 to 3, which every word is held to.
#![tactic(auto)]

mod rule;

ghost use Rattle.std.specs.Prelude.{◌≡◌, ◌<◌, IfSome, [], ◌∷◌};
ghost use Rattle.rules.specs.Rules.{lowest};
ghost use Rattle.rules.specs.Breaches.{deadline, early_breach};
ghost use Rattle.early.specs.Answers.{breach_number, deadline_number};

pub use rule::Rule;

// The first of rules 1 to 3 whose test holds.
fn lowest_early(stray: bool, low: bool, overdue: bool) -> Option<Rule>
    ensures { breach_number result ≡ lowest 1 (stray ∷ low ∷ overdue ∷ []) }
{
    if stray {
        Some(Rule::StrayBit)
    } else if low {
        Some(Rule::LowPd)
    } else if overdue {
        Some(Rule::RefreshOverdue)
    } else {
        None
    }
}

// The last clock that rule 3 allows, by D and the last eight REF words, newest first: if m is the highest place that is not 0, m × D after
// the REF word there. None where all are 0, and any clock is allowed.
pub fn deadline(refi: u32, refs: [u32; 8]) -> Option<u64>
    ensures { (deadline_number result ≡ deadline refi refs) × IfSome result (λ last. 0 < last) }
{
    for i in (0..8).rev() {
        if refs[i] != 0 {
            return Some(u64::from(refs[i]) + (i as u64 + 1) * u64::from(refi));
        }
    }
    None
}

// The lowest of rules 1 to 3 that a word breaches. `low` says whether it breaches rule 2, and `last` is the last clock that rule 3 allows:
// none, or 0, where it allows every clock.
pub fn early_breach(low: bool, last: Option<u64>, clock: u32, word: u32) -> Option<Rule>
    ensures { breach_number result ≡ early_breach low (deadline_number last) clock word }
{
    let overdue = last.is_some_and(|last| last != 0 && last < u64::from(clock));
    lowest_early(0x100000 <= word, low, overdue)
}
