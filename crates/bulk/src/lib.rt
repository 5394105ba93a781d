// Calls on long slices and large counts, for the tests alone: what the program `replay` cannot take, since its script is short and its
// numbers have 32 bits. The crate bulk_c exports them to programs in Rust.
#![tactic(auto)]

mod number;
mod stored;
mod walk;

ghost use Rattle.std.specs.Prelude.{◌≡◌};
ghost use Rattle.config.specs.Configuration.{sheet_of};
ghost use Rattle.rules.specs.Verdict.{check_of};
ghost use Rattle.bulk.specs.Numbers.{check_number, finding_number, walk_number};
ghost use Rattle.bulk.specs.Walks.{walk_of, again_of};
ghost use Rattle.bulk.specs.Stored.{counted_of, stored};
ghost use Rattle.bulk.specs.Shown.{found_of, shown_in};
ghost use Rattle.bulk.specs.Timed.{timed_of, timed_number, timed_in};

use config::Config;
use counts::{Uncounted, count_commands};
use duration::trace_duration;
use lending::advance_through;
use limits::{BreachOn, check_within};
use number::{of_breach, of_progress, of_verdict};
use stored::store;
use walk::walk;

// The whole check.
pub fn bulk_check(sheet: &[u32; 11], words: &[u32]) -> u64
    ensures { result ≡ check_number (check_of (sheet_of sheet.now) words.now) }
{
    of_verdict(wordcheck::check(Config::from(*sheet), words))
}

// The check in the limits of two sheets; the sheet that is shown is put into the places.
pub fn bulk_limits(
    least: &[u32; 11],
    greatest: &[u32; 11],
    words: &[u32],
    shown: &mut [u32; 11],
) -> u64
    ensures answer { result ≡ finding_number (found_of least.now greatest.now words.now) }
    ensures buffer { shown.new ≡
        shown_in (found_of least.now greatest.now words.now) shown.old }
{
    match check_within(Config::from(*least), Config::from(*greatest), words) {
        Ok(None) => 0,
        Ok(Some(BreachOn { sheet, breach })) => {
            *shown = sheet.into();
            of_breach(breach)
        }
        Err(why) => u64::from(why.number()),
    }
}

// A fresh walk, advanced until it does not pass: the answer that it stops with.
pub fn bulk_walk(sheet: &[u32; 11], words: &[u32]) -> u64
    ensures { result ≡ walk_number (walk_of (sheet_of sheet.now) words.now).outcome }
{
    of_progress(walk(Config::from(*sheet), words).progress)
}

// A whole walk over the words, and then the answer of one advance more.
pub fn bulk_walk_again(sheet: &[u32; 11], words: &[u32]) -> u64
    ensures { result ≡ walk_number (again_of (sheet_of sheet.now) words.now) }
{
    let stopped = walk(Config::from(*sheet), words);
    of_progress(advance_through(words, stopped.checker).progress)
}

// Counts the commands and puts the six counts into the first six places, if there are six; 0 or the refusal's number.
pub fn bulk_count(sheet: &[u32; 11], words: &[u32], places: &mut [u32]) -> u32
    ensures answer { result ≡ (counted_of sheet.now words.now).number }
    ensures buffer { places.new ≡
        stored (counted_of sheet.now words.now).counts places.old }
{
    let (number, counts) = match count_commands(Config::from(*sheet), words) {
        Ok(counts) => (0, counts),
        Err(Uncounted { why, counts }) => (why.number(), counts),
    };
    store(counts, places);
    number
}

// How long so many words last, put into the places: whole nanoseconds and the rest; 0 or the refusal's number.
pub fn bulk_duration(sheet: &[u32; 11], count: usize, places: &mut [u32; 2]) -> u32
    ensures answer { result ≡ timed_number (timed_of sheet.now count) }
    ensures buffer { places.new ≡ timed_in (timed_of sheet.now count) places.old }
{
    match trace_duration(Config::from(*sheet), count) {
        Ok(duration) => {
            *places = [duration.whole.0, duration.rest.0];
            0
        }
        Err(why) => why.number(),
    }
}
