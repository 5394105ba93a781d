// An offer on a timing: the request joins the queue, or is refused.
ghost use Rattle.std.specs.Prelude.{◌≡◌, ◌<◌};
ghost use Rattle.basics.specs.Outcome.{value};
ghost use Rattle.basics.specs.Numbers.{refusal_number};
ghost use Rattle.controller.specs.Steps.{offered, joined, not_offered, offer_by};

use crate::{Controller, Offered};
use basics::Refusal;
use command::Request;
use config::Timing;

impl Controller {
    // An accepted request goes behind those that wait.
    fn joined(mut self, request: Request) -> Controller
        requires { self.count < 16 }
        ensures { result ≡ joined self request }
    {
        self.waiting[self.count as usize] = request;
        self.count += 1;
        self
    }

    // A refused offer changes nothing.
    pub(crate) fn not_offered(self, why: Refusal) -> Offered
        ensures { offered result ≡ not_offered self (refusal_number why) }
    {
        Offered {
            answer: Err(why),
            controller: self,
        }
    }
}

// An offer, for whoever has the timing, whichever it is: 19, 26 and 27, in this order, and a refusal changes nothing; else the request goes
// behind those that wait. The state's configuration is not looked at.
pub fn offer_by(timing: Timing, controller: Controller, request: Request) -> Offered
    ensures { offered result ≡ offer_by (value timing) controller request }
{
    if !controller.fits(timing) {
        return controller.not_offered(Refusal::State);
    }
    if !writing::request_fits(timing, request) {
        return controller.not_offered(Refusal::Field);
    }
    if controller.count >= Controller::CAPACITY {
        return controller.not_offered(Refusal::QueueFull);
    }
    Offered {
        answer: Ok(()),
        controller: controller.joined(request),
    }
}
