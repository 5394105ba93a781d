// A pair of words is read to the operation that it stands for, and to the clocks of its data.
#![tactic(auto)]

ghost use Rattle.std.specs.Prelude.{◌≡◌, cond};
ghost use Rattle.command.specs.Pins.{pins};
ghost use Rattle.reading.specs.Reading.{lane_by, access_of, mode_by, operation_of, register_fits};
ghost use Rattle.reading.specs.Reading.{latency_of, burst_of, decoded_of};
ghost use Rattle.reading.specs.Reading.{mode_wrong, lane_reserved, sound_pair, read_pair};
ghost use Rattle.basics.specs.Answers.{outcome_of};

use basics::{Refusal, choose};
use command::address::{bank, row};
use command::pins::{A0, A1, A3, A4, A7, A11, A12, A13, BA0, BA1, BA2, CS, FN, PD, high, kept};
use command::{Operation, Pair, Request};
use config::{Clocks, Config, Timing};

// What reading a pair gives: its operation, and when the data of a read or write lie on the data pins.
#[derive(Clone, Copy)]
pub struct Decoded {
    pub operation: Operation,
    // From LAL to the first data.
    pub latency: Clocks,
    // From the first data to the last, both included: the paper's data length.
    pub burst: Clocks,
}

// The words that a lane writes, at BL 2 or at BL 4, by its VW pins; 0 is the reserved code.
fn lane(short: bool, vw0: bool, vw1: bool) -> u32
    ensures { result ≡ lane_by short vw0 vw1 }
{
    match (short, vw0, vw1) {
        (true, true, _) => 1,
        (true, false, _) => 2,
        (false, true, true) => 1,
        (false, true, false) => 4,
        (false, false, true) => 2,
        (false, false, false) => 0,
    }
}

fn column(wide: bool, second: u32) -> u32
    ensures { result ≡ cond wide (pins 0 8 second) (pins 0 9 second) }
{
    if wide {
        second / A0 % 256
    } else {
        second / A0 % 512
    }
}

// The request of a read or a write.
fn access(timing: Timing, write: bool, pair: Pair) -> Request
    ensures { result ≡ access_of timing write pair.first pair.second }
{
    let figures = timing.figures();
    let Pair { first, second } = pair;
    let wide = figures.organisation == 16;
    let short = figures.bl == 2;
    let lower = lane(short, high(second, BA2), high(second, A13));
    let upper = lane(short, high(second, A12), high(second, A11));
    Request {
        write,
        bank: bank(figures.four, first),
        row: row(figures.four, first),
        column: column(wide, second),
        lower: kept(write, lower),
        upper: kept(write & wide, upper),
    }
}

fn mode(extended: bool, second: u32) -> Operation
    ensures { result ≡ mode_by extended second }
{
    if extended {
        Operation::Extended(second / A1 % 64)
    } else {
        Operation::Regular(high(second, A3))
    }
}

// The operation of a pair.
fn operation(timing: Timing, pair: Pair) -> Operation
    ensures { result ≡ operation_of timing pair.first pair.second }
{
    let rda = high(pair.first, FN);
    let lal = high(pair.second, CS);
    if lal {
        Operation::Access(access(timing, !rda, pair))
    } else if rda {
        mode(high(pair.second, BA0), pair.second)
    } else {
        Operation::Refresh
    }
}

// CL for a read, WL for a write, and 0 for the others (RULES 3.6).
fn latency(timing: Timing, pair: Pair) -> Clocks
    ensures { result.0 ≡ latency_of timing (operation_of timing pair.first pair.second) }
{
    let figures = timing.figures();
    let write = !high(pair.first, FN);
    Clocks(kept(high(pair.second, CS), choose(write, figures.wl, figures.cl)))
}

// BL / 2 for a read or write, whatever its lanes write, and 0 for the others (RULES 3.6).
pub fn burst(timing: Timing, pair: Pair) -> Clocks
    ensures { result.0 ≡ burst_of timing (operation_of timing pair.first pair.second) }
{
    let figures = timing.figures();
    Clocks(kept(high(pair.second, CS), figures.bl / 2))
}

// The operation of a pair with the clocks of its data.
fn decode(timing: Timing, pair: Pair) -> Decoded
    ensures { result ≡ decoded_of timing (operation_of timing pair.first pair.second) }
{
    Decoded {
        operation: operation(timing, pair),
        latency: latency(timing, pair),
        burst: burst(timing, pair),
    }
}

fn register_fits(extended: bool, timing: Timing, second: u32) -> bool
    ensures { result ≡ register_fits extended timing second }
{
    let figures = timing.figures();
    if extended {
        !high(second, A0)
    } else {
        (second / A0 % 8 == figures.bl / 2) & (second / A4 % 8 == figures.cl)
    }
}

// Rule 4 (RULES 4.4): the pair is a mode, and its MRS has a wrong field.
pub fn mode_wrong(timing: Timing, pair: Pair) -> bool
    ensures { result ≡ mode_wrong timing pair.first pair.second }
{
    let second = pair.second;
    let register = register_fits(high(second, BA0), timing, second);
    (high(pair.first, FN) & !high(second, CS))
        & !((second / BA1 % 4 == 0) & (second / A7 % 128 == 0) & register)
}

// Rule 5 (RULES 4.5): the pair is a write, and its LAL has a reserved lane.
pub fn lane_reserved(timing: Timing, pair: Pair) -> bool
    ensures { result ≡ lane_reserved timing pair.first pair.second }
{
    let figures = timing.figures();
    let second = pair.second;
    let lower = !high(second, BA2) & !high(second, A13);
    let upper = !high(second, A12) & !high(second, A11);
    (!high(pair.first, FN) & high(second, CS))
        & ((figures.bl == 4) & (lower | (figures.organisation == 16) & upper))
}

fn sound_pair(timing: Timing, pair: Pair) -> bool
    ensures { result ≡ sound_pair timing pair.first pair.second }
{
    let Pair { first, second } = pair;
    !high(first, CS)
        & !((0x100000 <= first) | (0x100000 <= second))
        & (high(first, PD) & high(second, PD))
        & !mode_wrong(timing, pair)
        & !lane_reserved(timing, pair)
}

// Reads a pair: the configuration's refusals, then 28 for words that are no sound pair (RULES 3.4).
pub fn read_pair(config: Config, pair: Pair) -> Result<Decoded, Refusal>
    ensures { outcome_of result ≡ read_pair config pair }
{
    let timing = config.timing()?;
    if !sound_pair(timing, pair) {
        return Err(Refusal::NotAPair);
    }
    Ok(decode(timing, pair))
}
