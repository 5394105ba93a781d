// A quick look: what is true only of words that breach nothing, by a few comparisons. It is there for speed.
ghost use Rattle.std.specs.Prelude.{◌≡◌, true, false, ℕ, ◌+◌, ◌/◌, ◌≤◌, ◌<◌, length};
ghost use Rattle.early.specs.Answers.{deadline_number};
ghost use Rattle.rules.specs.Breaches.{overdue};
ghost use Rattle.bytecheck.specs.Quick.{SettledFrom, InTime};
ghost use Rattle.bytecheck.specs.Pairs.{limits_of, Small, Clear, FreeFrom};

use crate::trace::Trace;
use basics::choose;
use config::Timing;
use early::deadline;
use stamps::Timestamps;

// Past every clock of a trace.
const NEVER: u64 = 16777217;

// Of a read or write as one number, its first word below: FN of the first, which is high in a read, and above it the pins VW0 and VW1 of a
// lane. None is set where a write has the lane reserved.
const LOWER: u64 = 0x1200000020000;

const UPPER: u64 = 0x180000020000;

// Bits of which one is set in any read or write.
const ANY: u64 = 0xFFFFFFFFFFFFFFFF;

// A timestamp and a number of clocks after it.
fn plus(stamp: u32, clocks: u32) -> u64
    ensures { (result ≡ stamp + clocks) × (result < 8589934592) }
{
    u64::from(stamp) + u64::from(clocks)
}

// The clock behind the last one that rule 3 allows. Past every clock of a trace where there is none, or where it lies as far.
fn late_from(last: Option<u64>) -> u64
    ensures { (k : ℕ) → k < result → overdue (deadline_number last) k ≡ false }
{
    match last {
        Some(last) => if last < NEVER { last + 1 } else { NEVER },
        None => NEVER,
    }
}

impl Trace<'_> {
    // How many of the words keep rule 3. This is the lower of their number and one that has nothing to do with it, so the compiler sees
    // that it is at most their number, and no read of a word before it tests again whether the word is there.
    pub(crate) fn in_time(self, stamps: Timestamps) -> u64
        ensures { (result ≤ length self.entry.bytes.now / 4) × InTime self.entry.timing stamps result }
    {
        let figures = self.timing.figures();
        late_from(deadline(figures.refi, stamps.refs)).min((self.bytes.len() / 4) as u64)
    }
}

// A clock from which on no read or write breaches rule 6, 9 or 10.
fn settled_from(timing: Timing, stamps: Timestamps) -> u64
    ensures { SettledFrom timing stamps result × (result ≤ 8589934592) }
{
    let figures = timing.figures();
    if (stamps.extended == 0) | (stamps.regular == 0) | (stamps.refs[1] == 0) {
        return NEVER;
    }
    plus(stamps.extended, 201)
        .max(plus(stamps.mode, figures.rsc))
        .max(plus(stamps.refs[0], figures.refc))
}

// What reads and writes are tested by, the same for all of a trace.
#[derive(Clone, Copy)]
pub(crate) struct Limits {
    // Bits of a read or write of which one is set where the lower lane is not reserved, and where the upper one is not.
    pub(crate) lower: u64,
    pub(crate) upper: u64,
    pub(crate) rc: u64,
    // The least clocks, by rule 8, to a write and to a read: two after a write, two after a read, and two of 0, for a clock from which on
    // either is allowed.
    pub(crate) spacings: [u64; 6],
}

impl Limits {
    pub(crate) fn of(timing: Timing) -> Limits
        ensures { (result ≡ limits_of timing) × Small result }
    {
        let figures = timing.figures();
        let reserved = figures.bl == 4;
        let lower = choose(reserved, LOWER, ANY);
        let same = u64::from(figures.rbd);
        let to_read = same.max(u64::from(figures.wrd) + 1);
        let to_write = same.max(u64::from(figures.rwd) + 1);
        Limits {
            lower,
            upper: choose(reserved & (figures.organisation == 16), UPPER, lower),
            rc: u64::from(figures.rc),
            spacings: [same, to_read, to_write, same, 0, 0],
        }
    }
}

// A clock from which on no read or write breaches rule 6, 8, 9 or 10.
pub(crate) fn free_from(timing: Timing, stamps: Timestamps) -> u64
    ensures { FreeFrom timing stamps result 4 × (result ≤ 8589934592) }
{
    let figures = timing.figures();
    settled_from(timing, stamps)
        .max(plus(stamps.read, figures.rbd))
        .max(plus(stamps.read, figures.rwd) + 1)
        .max(plus(stamps.write, figures.rbd))
        .max(plus(stamps.write, figures.wrd) + 1)
}

// True only of the two words of a read or write that keep rules 1, 2, 5 and 7, and not before the clock `allowed`.
pub(crate) fn clear(limits: Limits, bank: u32, allowed: u64, closing: u64, pair: u64) -> bool
    requires { Small limits }
    ensures { result ≡ true → Clear limits bank allowed closing pair }
{
    if pair % 0x100000000 / 0x40000 != 2 {
        return false;
    }
    if pair / 0x100000000 / 0x40000 != 3 {
        return false;
    }
    if pair & limits.lower == 0 {
        return false;
    }
    if pair & limits.upper == 0 {
        return false;
    }
    if closing < u64::from(bank) + limits.rc {
        return false;
    }
    if closing < allowed {
        return false;
    }
    true
}
