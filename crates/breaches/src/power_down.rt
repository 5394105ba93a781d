// Power down: rule 2, by which PD goes low, and rule 13, by which the memory wakes.
ghost use Rattle.std.specs.Prelude.{◌≡◌};
ghost use Rattle.rules.specs.Breaches.{must_stay_high, wrongly_low, selected_at_exit};

use crate::near;
use command::pins::{CS, PD, high};
use config::Timing;
use stamps::{Kept, Timestamps, is_exiting, is_powered_down};

// PD may not go low yet, by any timestamps: it is too soon after an earlier pair.
pub fn must_stay_high(timing: Timing, stamps: Timestamps, clock: u32) -> bool
    ensures { result ≡ must_stay_high timing stamps clock }
{
    let figures = timing.figures();
    let half = figures.bl / 2;
    let now = u64::from(clock);
    // A pair that closed at c began at c - 1, and lies one clock further back.
    let from_start = now + 1;
    let after_read = near(from_start, stamps.read, figures.rc, 0);
    let after_write = near(from_start, stamps.write, figures.rc, 0);
    let after_mode = near(from_start, stamps.mode, figures.rsc, 0);
    let after_refresh = near(from_start, stamps.refs[0], figures.refc, 0);
    let read_data = near(now, stamps.read, figures.cl, half);
    let write_data = near(now, stamps.write, figures.wl, 2);
    after_read | after_write | after_mode | after_refresh | read_data | write_data
}

// Rule 2: the word goes low and may not.
pub(crate) fn wrongly_low(timing: Timing, kept: Kept, word: u32) -> bool
    ensures { result ≡ wrongly_low timing kept.stamps kept.clock kept.met word }
{
    if high(word, PD) {
        return false;
    }
    let powered_down = is_powered_down(kept.met);
    let exiting = is_exiting(kept.met);
    let opened = !high(kept.met, CS);
    let selected = !high(word, CS);
    let too_soon = must_stay_high(timing, kept.stamps, kept.clock);
    !powered_down & (opened | exiting | selected | too_soon)
}

// Rule 13: a wake-up word with CS low.
pub(crate) fn selected_at_exit(first: u32, word: u32) -> bool
    ensures { result ≡ selected_at_exit first word }
{
    let powered_down = is_powered_down(first);
    let exiting = is_exiting(first);
    (powered_down | exiting) & (high(word, PD) & !high(word, CS))
}
