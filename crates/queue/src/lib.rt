// The requests that wait, oldest first: as many as are counted of sixteen places. A count above sixteen counts them all. The places and
// their count are two arguments, as they are two fields of a controller: a struct of both would be made anew, with a copy, for each call.
#![tactic(auto)]

mod totals;

ghost use Rattle.std.specs.Prelude.{◌≡◌, ◌-◌, take};
ghost use Rattle.std.specs.Option.{option_map_or};
ghost use Rattle.queue.specs.Queue.{vacant, all_fit, request_at};
ghost use Rattle.queue.specs.Place.{closed_up};

use command::Request;
use config::Timing;
pub use totals::{same_totals, totals_of};

// A place where no request waits.
pub const VACANT: Request = Request {
    write: false,
    bank: 0,
    row: 0,
    column: 0,
    lower: 0,
    upper: 0,
};

// Every field of the first so many waiting requests is in its range.
pub fn waiting_fit(timing: Timing, waiting: [Request; 16], count: u32) -> bool
    ensures { result ≡ all_fit timing (take count waiting) }
{
    waiting
        .iter()
        .take(count as usize)
        .all(|&request| writing::request_fits(timing, request))
}

// The request at a place; a vacant one where there is no such place.
pub fn request_at(waiting: [Request; 16], place: u32) -> Request
    ensures { result ≡ request_at place waiting }
{
    waiting.get(place as usize).copied().unwrap_or(VACANT)
}

// The one at a place has left: each behind it is one place further on. The work goes by how many wait behind it. Where the place is not one
// that is counted, none has left.
fn closed_up(mut waiting: [Request; 16], count: u32, place: u32) -> [Request; 16]
    ensures { result ≡ closed_up vacant place count waiting }
{
    let counted = count.min(16) as usize;
    let at = place as usize;
    if at < counted {
        waiting.copy_within(at + 1..counted, at);
        waiting[counted - 1] = VACANT;
    }
    waiting
}

// The requests, once the one at a place has left or none has.
pub fn requests_left(waiting: [Request; 16], count: u32, place: Option<u32>) -> [Request; 16]
    ensures { result ≡ option_map_or (λ p. closed_up vacant p count waiting) place waiting }
{
    match place {
        Some(place) => closed_up(waiting, count, place),
        None => waiting,
    }
}

// How many wait, once one has left or none has; 0 stays 0.
pub fn count_left(count: u32, place: Option<u32>) -> u32
    ensures { result ≡ option_map_or (λ p. count - 1) place count }
{
    match place {
        Some(_) => count.saturating_sub(1),
        None => count,
    }
}
