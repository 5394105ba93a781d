// The controller: it keeps requests waiting and gives the words of its ticks.
#![tactic(auto)]

mod next;
mod offering;
mod state;
mod ticking;

ghost use Rattle.std.specs.Prelude.{◌≡◌};
ghost use Rattle.controller.specs.States.{fresh};
ghost use Rattle.controller.specs.Steps.{offered, ticked, offer_of, tick_of};

use basics::Refusal;
use command::Request;
use config::Config;
pub use offering::offer_by;
use queue::VACANT;
use scheduler::OpenPair;
use stamps::Timestamps;
pub use ticking::tick_choosing;

#[derive(Clone, Copy)]
pub struct Controller {
    pub config: Config,
    // The clock of the word that the next tick gives.
    pub clock: u32,
    pub opened: OpenPair,
    pub stamps: Timestamps,
    // Oldest first; calls keep every place past the count vacant.
    pub waiting: [Request; 16],
    pub count: u32,
}

#[derive(Clone, Copy)]
pub struct Offered {
    pub answer: Result<(), Refusal>,
    pub controller: Controller,
}

// A refused tick gives word 0.
#[derive(Clone, Copy)]
pub struct Ticked {
    pub answer: Result<(), Refusal>,
    pub word: u32,
    pub controller: Controller,
}

impl Controller {
    // How many requests can wait.
    pub const CAPACITY: u32 = 16;

    // A fresh controller, on any configuration.
    pub fn fresh(config: Config) -> Controller
        ensures { result ≡ fresh config }
    {
        Controller {
            config,
            clock: 0,
            opened: OpenPair::Nothing,
            stamps: Timestamps::never(),
            waiting: [VACANT; 16],
            count: 0,
        }
    }

    // Takes a request: the configuration's refusals, then 19, 26 and 27; a refusal changes nothing.
    pub fn offer(self, request: Request) -> Offered
        ensures { offered result ≡ offer_of self request }
    {
        match self.config.timing() {
            Ok(timing) => offer_by(timing, self, request),
            Err(why) => self.not_offered(why),
        }
    }

    // Gives the word for the clock: the configuration's refusals, then 19 and 24; a refusal changes nothing and gives word 0.
    pub fn tick(self) -> Ticked
        ensures { ticked result ≡ tick_of self }
    {
        match self.config.timing() {
            Ok(timing) => tick_choosing(timing, self, 0),
            Err(why) => self.not_ticked(why),
        }
    }
}
