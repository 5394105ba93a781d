// The pairs that a controller opens: which comes next, and the words of each.
#![tactic(auto)]

ghost use Rattle.std.specs.Prelude.{◌≡◌, ◌+◌, cond, leb};
ghost use Rattle.scheduler.specs.Pairs.{pair_words, is_open, of_waiting, place_of, chosen_at, next_pair};

use command::{Operation, Pair, Request};
use config::Timing;
use stamps::{DESL, Timestamps};

// What the open pair stands for, in the order of RULES 8.3, or that none is open; its closing word is the next.
#[derive(Clone, Copy)]
pub enum OpenPair {
    Nothing,
    Extended,
    Regular,
    Refresh,
    // The waiting request at this place.
    Waiting(u32),
}

impl OpenPair {
    // A pair is open.
    pub fn is_open(self) -> bool
        ensures { result ≡ is_open self }
    {
        !matches!(self, OpenPair::Nothing)
    }

    // The place of the request whose pair is open; none where it is no request's.
    pub fn place(self) -> Option<u32>
        ensures { result ≡ cond (of_waiting self) (Some (place_of self)) None }
    {
        match self {
            OpenPair::Waiting(place) => Some(place),
            _ => None,
        }
    }

    // The two words of an open pair, from the request at its place; DESL where none is open.
    pub fn words(self, timing: Timing, request: Request) -> Pair
        ensures { result ≡ pair_words timing self request }
    {
        match self {
            OpenPair::Nothing => Pair {
                first: DESL,
                second: DESL,
            },
            OpenPair::Extended => writing::encode(timing, Operation::Extended(0)),
            OpenPair::Regular => writing::encode(timing, Operation::Regular(false)),
            OpenPair::Refresh => writing::encode(timing, Operation::Refresh),
            OpenPair::Waiting(_) => writing::encode(timing, Operation::Access(request)),
        }
    }
}

// A refresh is due (case 3 of RULES 8.3): the clock is r + D - RC or later, where r is the last REF word.
fn refresh_due(last: u32, refi: u32, clock: u32, rc: u32) -> bool
    ensures { result ≡ leb (last + refi) (clock + rc) }
{
    u64::from(last) + u64::from(refi) <= u64::from(clock) + u64::from(rc)
}

// The pair of the request at a place, where so many wait; nothing where none waits there.
pub fn chosen_at(place: u32, count: u32) -> OpenPair
    ensures { result ≡ chosen_at place count }
{
    if place < count {
        OpenPair::Waiting(place)
    } else {
        OpenPair::Nothing
    }
}

// The start-up in its order, then a refresh that is due, then what is chosen.
pub fn next_pair(timing: Timing, stamps: Timestamps, clock: u32, chosen: OpenPair) -> OpenPair
    ensures { result ≡ next_pair timing stamps clock chosen }
{
    let figures = timing.figures();
    if stamps.extended == 0 {
        OpenPair::Extended
    } else if stamps.regular == 0 {
        OpenPair::Regular
    } else if stamps.refs[1] == 0 || refresh_due(stamps.refs[0], figures.refi, clock, figures.rc) {
        OpenPair::Refresh
    } else {
        chosen
    }
}
