// The pair that opens at a clock.
ghost use Rattle.std.specs.Prelude.{◌≡◌, ◌<◌};
ghost use Rattle.controller.specs.Steps.{passes, opens_next};

use crate::Controller;
use breaches::word_breach;
use command::Pair;
use config::Timing;
use queue::request_at;
use scheduler::{OpenPair, chosen_at, next_pair};
use stamps::{DESL, Kept, Timestamps};

// The two words of a pair, at this clock and the next, would breach nothing.
fn passes(timing: Timing, stamps: Timestamps, clock: u32, pair: Pair) -> bool
    requires { clock < 16777216 }
    ensures { result ≡ passes timing stamps clock pair }
{
    let kept = Kept {
        clock,
        met: DESL,
        stamps,
    };
    let between = Kept {
        clock: clock + 1,
        met: pair.first,
        ..kept
    };
    let first = word_breach(timing, kept, pair.first);
    let second = word_breach(timing, between, pair.second);
    first.is_none() & second.is_none()
}

impl Controller {
    // The pair that opens at the clock, or none, where the request at a place is chosen. Where none comes next, no words are tested.
    pub(crate) fn opens_next(self, timing: Timing, place: u32) -> OpenPair
        requires { self.clock < 16777216 }
        ensures { result ≡ opens_next timing self place }
    {
        let chosen = chosen_at(place, self.count);
        let next = next_pair(timing, self.stamps, self.clock, chosen);
        if !next.is_open() {
            return OpenPair::Nothing;
        }
        let words = next.words(timing, request_at(self.waiting, place));
        if passes(timing, self.stamps, self.clock, words) {
            next
        } else {
            OpenPair::Nothing
        }
    }
}
