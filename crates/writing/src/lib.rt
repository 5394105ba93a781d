// An operation is written to its pair of words. Every pin that carries nothing is low (RULES 2.7).
#![tactic(auto)]

ghost use Rattle.std.specs.Prelude.{◌≡◌, cond, not, ◌&&◌, ◌+◌, ◌*◌, ◌≤◌, eqb};
ghost use Rattle.command.specs.Pins.{level};
ghost use Rattle.writing.specs.Writing.{request_fits, operation_fits, access_pair, pair_of, write_pair};
ghost use Rattle.basics.specs.Answers.{outcome_of};

use basics::Refusal;
use command::address::{address, address_fits};
use command::pins::{A0, A1, A3, A4, A11, A12, A13, BA0, BA2, CS, FN, PD, bit, kept};
use command::{Operation, Pair, Request};
use config::{Config, Timing};

// Every field of the request is in its range.
pub fn request_fits(timing: Timing, request: Request) -> bool
    ensures { result ≡ request_fits timing request }
{
    let figures = timing.figures();
    let wide = figures.organisation == 16;
    let long = figures.bl == 4;
    let lower = request.lower;
    let upper = request.upper;
    let lower_fits = (lower == 1) | (lower == 2) | long & (lower == 4);
    let upper_fits = (upper == 1) | (upper == 2) | long & (upper == 4);
    let lanes = request.write & lower_fits & (wide & upper_fits | !wide & (upper == 0))
        | !request.write & ((lower == 0) & (upper == 0));
    address_fits(figures.four, request.bank, request.row)
        & ((request.column <= 255) | !wide & (request.column <= 511))
        & lanes
}

// Every field of the operation is in its range.
fn operation_fits(timing: Timing, operation: Operation) -> bool
    ensures { result ≡ operation_fits timing operation }
{
    match operation {
        Operation::Access(request) => request_fits(timing, request),
        Operation::Extended(v) => v <= 63,
        Operation::Regular(_) | Operation::Refresh => true,
    }
}

// The VW pins, of these weights, of a lane that writes so many words; low where the lane is not driven.
fn lane(driven: bool, long: bool, words: u32, vw0: u32, vw1: u32) -> u32
    requires { vw0 + vw1 ≤ 73728 }
    ensures { (result ≡ cond driven (level (not (eqb words 2)) * vw0 + level (long && not (eqb words 4)) * vw1) 0) × (result ≤ vw0 + vw1) }
{
    kept(
        driven,
        kept(!(words == 2), vw0) + kept(long & !(words == 4), vw1),
    )
}

fn access(timing: Timing, request: Request) -> Pair
    ensures { result ≡ access_pair timing request }
{
    let figures = timing.figures();
    let long = figures.bl == 4;
    let wide = figures.organisation == 16;
    let lower = lane(request.write, long, request.lower, BA2, A13);
    let upper = lane(request.write & wide, long, request.upper, A12, A11);
    Pair {
        first: PD + bit(!request.write) * FN + address(figures.four, request.bank, request.row),
        second: PD + CS + request.column % 512 * A0 + lower + upper,
    }
}

// The two words of any operation: each number on the pins of its field, which keep its low bits.
pub fn encode(timing: Timing, operation: Operation) -> Pair
    ensures { result ≡ pair_of timing operation }
{
    let figures = timing.figures();
    match operation {
        Operation::Access(request) => access(timing, request),
        Operation::Regular(a3) => Pair {
            first: PD + FN,
            second: PD + figures.cl % 8 * A4 + bit(a3) * A3 + figures.bl / 2 % 8 * A0,
        },
        Operation::Extended(v) => Pair {
            first: PD + FN,
            second: PD + BA0 + v % 64 * A1,
        },
        Operation::Refresh => Pair {
            first: PD,
            second: PD,
        },
    }
}

// Writes an operation: the configuration's refusals, then 26 for a field out of range.
pub fn write_pair(config: Config, operation: Operation) -> Result<Pair, Refusal>
    ensures { outcome_of result ≡ write_pair config operation }
{
    let timing = config.timing()?;
    if !operation_fits(timing, operation) {
        return Err(Refusal::Field);
    }
    Ok(encode(timing, operation))
}
