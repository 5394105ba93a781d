// The calls on what a caller lends, for callers that lend nothing: each lends a local, and hands back what is left in it.
#![tactic(auto)]

ghost use Rattle.std.specs.Prelude.{◌≡◌};
ghost use Rattle.controller.specs.Steps.{offered, offer_of, ticked, tick_of};
ghost use Rattle.walks.specs.Walk.{MovePromised};

use borrowed::{Given, offer, tick};
use checker::Checker;
use command::Request;
use controller::{Controller, Offered, Ticked};
use cursor::{TraceCursor, advance, new};
use walks::Moved;

// Takes a request: answers, and hands back, what `Controller::offer` does.
pub fn offer_through(mut controller: Controller, request: Request) -> Offered
    ensures { offered result ≡ offer_of controller request }
{
    let answer = offer(&mut controller, request);
    Offered { answer, controller }
}

// Gives the word for the clock: answers, and hands back, what `Controller::tick` does.
pub fn tick_through(mut controller: Controller) -> Ticked
    ensures { ticked result ≡ tick_of controller }
{
    let Given { answer, word } = tick(&mut controller);
    Ticked {
        answer,
        word,
        controller,
    }
}

// One advance of a walk over the words that has reached this checker.
pub fn advance_through(words: &[u32], reached: Checker) -> Moved
    ensures { MovePromised reached words.now result }
{
    let mut cursor = TraceCursor {
        checker: reached,
        ..new(words, reached.config)
    };
    let progress = advance(&mut cursor);
    Moved {
        progress,
        checker: cursor.checker,
    }
}
