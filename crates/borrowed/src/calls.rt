// A controller that the caller lends: the by-value call on a copy of it, and what that hands back is stored.
ghost use Rattle.borrowed.specs.Promised.{OfferPromised, TickPromised};

use basics::Refusal;
use command::Request;
use controller::Controller;

// A refused tick gives word 0.
#[derive(Clone, Copy)]
pub struct Given {
    pub answer: Result<(), Refusal>,
    pub word: u32,
}

// Takes a request: the answer is that of the by-value call, and the controller is left as that one hands it back.
pub fn offer(controller: &mut Controller, request: Request) -> Result<(), Refusal>
    ensures { OfferPromised controller.old request result controller.new }
{
    let offered = controller.offer(request);
    *controller = offered.controller;
    offered.answer
}

// Gives the word for the clock, in the same way.
pub fn tick(controller: &mut Controller) -> Given
    ensures { TickPromised controller.old result.answer result.word controller.new }
{
    let ticked = controller.tick();
    *controller = ticked.controller;
    Given {
        answer: ticked.answer,
        word: ticked.word,
    }
}
