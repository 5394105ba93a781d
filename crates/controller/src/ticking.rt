// A tick on a timing: the word for the clock, or a refusal.
ghost use Rattle.std.specs.Prelude.{◌≡◌, ◌<◌};
ghost use Rattle.basics.specs.Numbers.{refusal_number};
ghost use Rattle.controller.specs.Steps.{ticked, starting, closing, not_ticked, tick_choosing};

use crate::{Controller, Ticked};
use basics::{LIMIT, Refusal};
use config::Timing;
use queue::{count_left, request_at, requests_left};
use scheduler::OpenPair;

impl Controller {
    // No pair is open: the first word of the one that opens, or DESL.
    fn starting(self, timing: Timing, place: u32) -> Ticked
        requires { self.clock < 16777216 }
        ensures { ticked result ≡ starting timing self place }
    {
        let opened = self.opens_next(timing, place);
        let words = opened.words(timing, request_at(self.waiting, place));
        Ticked {
            answer: Ok(()),
            word: words.first,
            controller: Controller {
                clock: self.clock + 1,
                opened,
                ..self
            },
        }
    }

    // A pair is open: its closing word, with which a request leaves from its place.
    fn closing(self, timing: Timing) -> Ticked
        requires { self.clock < 16777216 }
        ensures { ticked result ≡ closing timing self }
    {
        let place = self.opened.place();
        // Where the pair is no request's, its words go by none.
        let request = request_at(self.waiting, place.unwrap_or(0));
        let words = self.opened.words(timing, request);
        let stamps = self
            .stamps
            .remembered(timing.figures().four, self.clock, words);
        Ticked {
            answer: Ok(()),
            word: words.second,
            controller: Controller {
                clock: self.clock + 1,
                opened: OpenPair::Nothing,
                stamps,
                waiting: requests_left(self.waiting, self.count, place),
                count: count_left(self.count, place),
                ..self
            },
        }
    }

    // A refused tick changes nothing and gives word 0.
    pub(crate) fn not_ticked(self, why: Refusal) -> Ticked
        ensures { ticked result ≡ not_ticked self (refusal_number why) }
    {
        Ticked {
            answer: Err(why),
            word: 0,
            controller: self,
        }
    }
}

// A tick, for whoever has the timing, whichever it is, and has chosen the request at a place: 19 and 24, in this order, and a refusal
// changes nothing and gives word 0; else the word for the clock. A place at the count or past it chooses none. The choice counts where no
// pair is open, the start-up is done and no refresh is due. The state's configuration is not looked at.
pub fn tick_choosing(timing: Timing, controller: Controller, place: u32) -> Ticked
    ensures { ticked result ≡ tick_choosing timing controller place }
{
    if !controller.fits(timing) {
        return controller.not_ticked(Refusal::State);
    }
    if LIMIT <= controller.clock {
        return controller.not_ticked(Refusal::ClockLimit);
    }
    if controller.opened.is_open() {
        controller.closing(timing)
    } else {
        controller.starting(timing, place)
    }
}
