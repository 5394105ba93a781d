// The rules as tests of what is kept of the past: rules 4 to 12 at a closing word, and all of them at any word.
#![tactic(auto)]

mod power_down;

ghost use Rattle.std.specs.Prelude.{◌≡◌, true, false, ◌+◌, get_or};
ghost use Rattle.command.specs.Pairs.{rda, lal};
ghost use Rattle.early.specs.Answers.{breach_number};
ghost use Rattle.rules.specs.Breaches.{near, not_ready, too_close, busy, closing_breach, word_breach};

use command::Pair;
use command::address::bank;
use command::pins::{CS, FN, high};
use config::Timing;
use early::{Rule, deadline, early_breach};
pub use power_down::must_stay_high;
use power_down::{selected_at_exit, wrongly_low};
use reading::{lane_reserved, mode_wrong};
use stamps::Kept;

// An event at this timestamp, if there was one, is less than so many clocks, and so many more, before the clock.
pub(crate) fn near(clock: u64, stamp: u32, limit: u32, more: u32) -> bool
    ensures { result ≡ near clock stamp (limit + more) }
{
    (stamp != 0) & (clock < u64::from(stamp) + (u64::from(limit) + u64::from(more)))
}

// Rule 6, for a read or write.
fn unready(kept: Kept) -> bool
    ensures { result ≡ not_ready kept.stamps.extended kept.stamps.regular (get_or kept.stamps.refs 1 0) kept.clock }
{
    (kept.stamps.extended == 0)
        | (kept.stamps.regular == 0)
        | (kept.stamps.refs[1] == 0)
        | (u64::from(kept.clock) < u64::from(kept.stamps.extended) + 201)
}

// Rule 8, for a read or write.
fn too_close(timing: Timing, kept: Kept) -> bool
    ensures { result ≡ too_close (rda kept.met) true timing kept.stamps.read kept.stamps.write kept.clock }
{
    let figures = timing.figures();
    let clock = u64::from(kept.clock);
    let rda = high(kept.met, FN);
    let after_read = near(clock, kept.stamps.read, figures.rbd, 0);
    let after_write = near(clock, kept.stamps.write, figures.rbd, 0);
    let read_to_write = near(clock, kept.stamps.read, figures.rwd, 1);
    let write_to_read = near(clock, kept.stamps.write, figures.wrd, 1);
    (after_read | after_write) | !rda & read_to_write | rda & write_to_read
}

// Rule 11, for an MRS or REF.
fn busy(timing: Timing, kept: Kept) -> bool
    ensures { result ≡ busy (rda kept.met) false timing kept.stamps.read kept.stamps.write kept.clock }
{
    let figures = timing.figures();
    let clock = u64::from(kept.clock);
    let half = figures.bl / 2;
    let rda = high(kept.met, FN);
    let after_read = near(clock, kept.stamps.read, figures.rc, 0);
    let after_write = near(clock, kept.stamps.write, figures.rc, 0);
    let read_data = near(clock, kept.stamps.read, figures.cl, half + 1);
    let write_data = near(clock, kept.stamps.write, figures.wl, half + 1);
    (after_read | after_write) | rda & read_data | rda & write_data
}

// Rules 4 to 12 at the LAL word of a read or write.
fn access_breach(timing: Timing, kept: Kept, word: u32) -> Option<Rule>
    requires { lal word ≡ true }
    ensures { breach_number result ≡ closing_breach timing kept.stamps kept.clock kept.met word }
{
    let figures = timing.figures();
    let clock = u64::from(kept.clock);
    let pair = Pair {
        first: kept.met,
        second: word,
    };
    let bank = bank(figures.four, kept.met) as usize;
    let reserved = lane_reserved(timing, pair);
    let unready = unready(kept);
    let same_bank = near(clock, kept.stamps.banks[bank], figures.rc, 0);
    let too_close = too_close(timing, kept);
    let after_mode = near(clock, kept.stamps.mode, figures.rsc, 0);
    let after_refresh = near(clock, kept.stamps.refs[0], figures.refc, 0);
    reserved
        .then_some(Rule::ReservedLane)
        .or(unready.then_some(Rule::NotReady))
        .or(same_bank.then_some(Rule::SameBank))
        .or(too_close.then_some(Rule::TooClose))
        .or(after_mode.then_some(Rule::AfterMode))
        .or(after_refresh.then_some(Rule::AfterRefresh))
}

// Rules 4 to 12 at an MRS or REF word.
fn mode_or_refresh_breach(timing: Timing, kept: Kept, word: u32) -> Option<Rule>
    requires { lal word ≡ false }
    ensures { breach_number result ≡ closing_breach timing kept.stamps kept.clock kept.met word }
{
    let figures = timing.figures();
    let clock = u64::from(kept.clock);
    let pair = Pair {
        first: kept.met,
        second: word,
    };
    let rda = high(kept.met, FN);
    let wrong = mode_wrong(timing, pair);
    let after_mode = near(clock, kept.stamps.mode, figures.rsc, 0);
    let after_refresh = near(clock, kept.stamps.refs[0], figures.refc, 0);
    let busy = busy(timing, kept);
    let in_window = near(clock, kept.stamps.refs[7], figures.window, 0);
    wrong
        .then_some(Rule::WrongMode)
        .or(after_mode.then_some(Rule::AfterMode))
        .or(after_refresh.then_some(Rule::AfterRefresh))
        .or(busy.then_some(Rule::Busy))
        .or((!rda & in_window).then_some(Rule::RefreshWindow))
}

// Rules 4 to 12 at the closing word of a pair.
fn closing_breach(timing: Timing, kept: Kept, word: u32) -> Option<Rule>
    ensures { breach_number result ≡ closing_breach timing kept.stamps kept.clock kept.met word }
{
    if high(word, CS) {
        access_breach(timing, kept, word)
    } else {
        mode_or_refresh_breach(timing, kept, word)
    }
}

// The lowest rule that a word breaches, by anything that is kept.
pub fn word_breach(timing: Timing, kept: Kept, word: u32) -> Option<Rule>
    ensures { breach_number result ≡ word_breach timing kept.stamps kept.clock kept.met word }
{
    let figures = timing.figures();
    let last = deadline(figures.refi, kept.stamps.refs);
    let low = wrongly_low(timing, kept, word);
    let early = early_breach(low, last, kept.clock, word);
    if early.is_some() {
        early
    } else if high(kept.met, CS) {
        selected_at_exit(kept.met, word).then_some(Rule::SelectedAtExit)
    } else {
        closing_breach(timing, kept, word)
    }
}
