// A trace turn by turn, for whoever goes through its words pair by pair: both words of a closed pair, or else a single word.
#![tactic(auto)]

ghost use Rattle.std.specs.Prelude.{◌≡◌};
ghost use Rattle.rules.specs.Turns.{opens_pair};
ghost use Rattle.turns.specs.OneTurn.{turn_outcome, turn_at};

use command::Pair;
use command::pins::{CS, PD, high};

// The words of a turn.
#[derive(Clone, Copy)]
pub enum TurnWords {
    // Both words of a pair.
    Closed(Pair),
    // DESL, a word with PD low, or the first word of a pair that the trace does not close.
    Single(u32),
}

// Whether a word opens a pair, where none is open before it.
pub fn opens_pair(word: u32) -> bool
    ensures { result ≡ opens_pair word }
{
    high(word, PD) & !high(word, CS)
}

// The turn from an index on, where no pair is open before the word there, and the index behind it; none where no word is left. Where a pair
// is open, the answer is as if none were.
pub fn turn(words: &[u32], at: usize) -> Option<(TurnWords, usize)>
    ensures { turn_outcome at result ≡ turn_at words.now at }
{
    let &first = words.get(at)?;
    if opens_pair(first) {
        if let Some(&second) = words.get(at + 1) {
            return Some((TurnWords::Closed(Pair { first, second }), at + 2));
        }
    }
    Some((TurnWords::Single(first), at + 1))
}
