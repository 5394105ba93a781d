// The calls of bulk, for the tests in Rust alone: each is the call of bulk by the same name, clause for clause.
#![tactic(auto)]

ghost use Rattle.std.specs.Prelude.{◌≡◌};
ghost use Rattle.rules.specs.Verdict.{check_of};
ghost use Rattle.config.specs.Configuration.{sheet_of};
ghost use Rattle.bulk.specs.Numbers.{check_number, finding_number, walk_number};
ghost use Rattle.bulk.specs.Walks.{walk_of, again_of};
ghost use Rattle.bulk.specs.Stored.{counted_of, stored};
ghost use Rattle.bulk.specs.Shown.{found_of, shown_in};
ghost use Rattle.bulk.specs.Timed.{timed_of, timed_number, timed_in};

// The whole check.
#[unsafe(no_mangle)]
pub extern "C" fn bulk_check(sheet: &[u32; 11], words: &[u32]) -> u64
    ensures { result ≡ check_number (check_of (sheet_of sheet.now) words.now) }
{
    bulk::bulk_check(sheet, words)
}

// The check in the limits of two sheets; the sheet that is shown is put into the places.
#[unsafe(no_mangle)]
pub extern "C" fn bulk_limits(
    least: &[u32; 11],
    greatest: &[u32; 11],
    words: &[u32],
    shown: &mut [u32; 11],
) -> u64
    ensures answer { result ≡ finding_number (found_of least.now greatest.now words.now) }
    ensures buffer { shown.new ≡
        shown_in (found_of least.now greatest.now words.now) shown.old }
{
    bulk::bulk_limits(least, greatest, words, shown)
}

// A fresh walk, advanced until it does not pass: the answer that it stops with.
#[unsafe(no_mangle)]
pub extern "C" fn bulk_walk(sheet: &[u32; 11], words: &[u32]) -> u64
    ensures { result ≡ walk_number (walk_of (sheet_of sheet.now) words.now).outcome }
{
    bulk::bulk_walk(sheet, words)
}

// A whole walk over the words, and then the answer of one advance more.
#[unsafe(no_mangle)]
pub extern "C" fn bulk_walk_again(sheet: &[u32; 11], words: &[u32]) -> u64
    ensures { result ≡ walk_number (again_of (sheet_of sheet.now) words.now) }
{
    bulk::bulk_walk_again(sheet, words)
}

// Counts the commands and puts the six counts into the first six places, if there are six; 0 or the refusal's number.
#[unsafe(no_mangle)]
pub extern "C" fn bulk_count(sheet: &[u32; 11], words: &[u32], places: &mut [u32]) -> u32
    ensures answer { result ≡ (counted_of sheet.now words.now).number }
    ensures buffer { places.new ≡
        stored (counted_of sheet.now words.now).counts places.old }
{
    bulk::bulk_count(sheet, words, places)
}

// How long so many words last, put into the places: whole nanoseconds and the rest; 0 or the refusal's number.
#[unsafe(no_mangle)]
pub extern "C" fn bulk_duration(sheet: &[u32; 11], count: usize, places: &mut [u32; 2]) -> u32
    ensures answer { result ≡ timed_number (timed_of sheet.now count) }
    ensures buffer { places.new ≡ timed_in (timed_of sheet.now count) places.old }
{
    bulk::bulk_duration(sheet, count, places)
}
