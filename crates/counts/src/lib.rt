// How often each command stands in a trace, and how long its data last (the paper's tally). It judges nothing.
#![tactic(auto)]

ghost use Rattle.std.specs.Prelude.{◌≡◌, ◌≤◌, length};
ghost use Rattle.rules.specs.Turns.{turns_of};
ghost use Rattle.counts.specs.Counts.{no_counts, uncounted, counting_outcome, counting_of};
ghost use Rattle.counts.specs.OneTurn.{Below, with_pair, with_single, with_turns};

use basics::Refusal;
use command::Pair;
use command::pins::{CS, FN, bit, high};
use config::{Clocks, Config, Timing};
use reading::burst;
use turns::{TurnWords, opens_pair, turn};

// How many reads, writes, modes and refreshes were closed, and how many words were DESL or, outside of pairs, had PD low.
#[derive(Clone, Copy)]
pub struct CommandCounts {
    pub reads: u32,
    pub writes: u32,
    pub modes: u32,
    pub refreshes: u32,
    pub desls: u32,
    // Clocks of data: the data lengths of these reads and writes, added up.
    pub clocks: Clocks,
}

// Why a call is refused, and its counts, which are all 0.
#[derive(Clone, Copy)]
pub struct Uncounted {
    pub why: Refusal,
    pub counts: CommandCounts,
}

impl From<Refusal> for Uncounted {
    ghost from_gives = { λ why r. r ≡ uncounted why };

    fn from(why: Refusal) -> Uncounted {
        Uncounted {
            why,
            counts: CommandCounts::NONE,
        }
    }
}

impl CommandCounts {
    const NONE: CommandCounts = CommandCounts {
        reads: 0,
        writes: 0,
        modes: 0,
        refreshes: 0,
        desls: 0,
        clocks: Clocks(0),
    };

    // The counts with one more closed pair, of the kind that its two words make, and with its data.
    fn with_pair(self, timing: Timing, pair: Pair) -> CommandCounts
        requires { (timing.bl ≤ 4) × Below 65536 self }
        ensures { result ≡ with_pair timing self pair.first pair.second }
    {
        let rda = high(pair.first, FN);
        let lal = high(pair.second, CS);
        CommandCounts {
            reads: bit(rda & lal) + self.reads,
            writes: bit(!rda & lal) + self.writes,
            modes: bit(rda & !lal) + self.modes,
            refreshes: bit(!rda & !lal) + self.refreshes,
            clocks: Clocks(burst(timing, pair).0 + self.clocks.0),
            ..self
        }
    }

    // The counts with one more single word: DESL, or one with PD low. One that opens a pair, which the trace does not close, is not
    // counted.
    fn with_single(self, word: u32) -> CommandCounts
        requires { Below 65536 self }
        ensures { result ≡ with_single self word }
    {
        CommandCounts {
            desls: bit(!opens_pair(word)) + self.desls,
            ..self
        }
    }
}

// Each turn starts with no pair open, and takes both words of a closed pair or else a single word.
fn counts_of(timing: Timing, words: &[u32]) -> CommandCounts
    requires { (timing.bl ≤ 4) × (length words.now ≤ 65536) }
    ensures { result ≡ with_turns timing no_counts (turns_of words.now) }
{
    let mut counts = CommandCounts::NONE;
    let mut at = 0;
    while let Some((taken, next)) = turn(words, at) {
        counts = match taken {
            TurnWords::Closed(pair) => counts.with_pair(timing, pair),
            TurnWords::Single(word) => counts.with_single(word),
        };
        at = next;
    }
    counts
}

// Counts the commands of at most 65,536 words on a configuration: its refusals, then 30 for more.
pub fn count_commands(config: Config, words: &[u32]) -> Result<CommandCounts, Uncounted>
    ensures { counting_outcome result ≡ counting_of config words.now }
{
    let timing = config.timing()?;
    if words.len() > 65536 {
        return Err(Refusal::TooLong.into());
    }
    Ok(counts_of(timing, words))
}
