// Whether a state's clock agrees with what the state remembers: one ground of refusal 19 (RULES 6.19).
#![tactic(auto)]

ghost use Rattle.std.specs.Prelude.{◌≡◌};
ghost use Rattle.consistency.specs.Consistency.{before, eight_before, stamps_before, words_before, clock_fits};

use basics::LIMIT;
use command::pins::{CS, high};
use stamps::{Kept, is_exiting, is_powered_down};

// An event, if it is remembered, is before the clock.
fn before(clock: u32, event: u32) -> bool
    ensures { result ≡ before clock event }
{
    (event == 0) | (event < clock)
}

// No branch goes by an event, so that the compiler tests several at once.
fn eight_before(clock: u32, events: [u32; 8]) -> bool
    ensures { result ≡ eight_before clock events }
{
    let mut all = true;
    for event in events {
        all &= before(clock, event);
    }
    all
}

// Every event that is remembered is before the clock.
fn stamps_before(kept: Kept) -> bool
    ensures { result ≡ stamps_before kept.clock kept.stamps }
{
    let Kept { clock, stamps, .. } = kept;
    before(clock, stamps.extended)
        && before(clock, stamps.regular)
        && before(clock, stamps.mode)
        && before(clock, stamps.read)
        && before(clock, stamps.write)
        && eight_before(clock, stamps.banks)
        && eight_before(clock, stamps.refs)
}

// How many words must stand before one that meets this.
fn words_before(first: u32) -> u32
    ensures { result ≡ words_before first }
{
    if !high(first, CS) || is_powered_down(first) {
        1
    } else if is_exiting(first) {
        2
    } else {
        0
    }
}

// The clock is within its limit, and nothing that is remembered contradicts it (otherwise 19).
pub fn clock_fits(kept: Kept) -> bool
    ensures { result ≡ clock_fits kept.clock kept.met kept.stamps }
{
    kept.clock <= LIMIT && stamps_before(kept) && words_before(kept.met) <= kept.clock
}
