// The grounds on which a state is refused by 19.
ghost use Rattle.std.specs.Prelude.{◌≡◌};
ghost use Rattle.queue.specs.Queue.{all_fit};
ghost use Rattle.controller.specs.Steps.{held, state_fits};

use crate::Controller;
use config::Timing;
use queue::waiting_fit;
use stamps::{DESL, Kept};

impl Controller {
    // Every field of the waiting requests is in its range. Where none waits, the queue is neither looked at nor copied.
    fn requests_fit(&self, timing: Timing) -> bool
        ensures { result ≡ all_fit timing (held self.now) }
    {
        self.count == 0 || waiting_fit(timing, self.waiting, self.count)
    }

    // The clock and the events agree, no pair is open at clock 0, at most sixteen wait, each with every field in its range, and an open
    // read or write pair has its request.
    pub(crate) fn fits(self, timing: Timing) -> bool
        ensures { result ≡ state_fits timing self }
    {
        let kept = Kept {
            clock: self.clock,
            met: DESL,
            stamps: self.stamps,
        };
        consistency::clock_fits(kept)
            & !((self.clock == 0) & self.opened.is_open())
            & (self.count <= Controller::CAPACITY)
            & self.requests_fit(timing)
            & !self.opened.place().is_some_and(|place| self.count <= place)
    }
}
