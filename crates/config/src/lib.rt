// The configuration of a memory part (the paper's sheet), and the timing that an accepted one yields.
#![tactic(auto)]

mod figures;
mod numbers;
mod stored;
mod wired;

ghost use Rattle.std.specs.Prelude.{◌≡◌, ◌≤◌, ◌<◌, max};
ghost use Rattle.config.specs.Configuration.{least_period, part_fits, wiring_fits, period_fits, counts_fit, refresh_fits};
ghost use Rattle.config.specs.Configuration.{derived, timing_of, institute};
ghost use Rattle.basics.specs.Answers.{outcome_of};

use basics::{Refusal, choose};

// A time in whole picoseconds: a type of its own, so that it is never taken for a count of clocks.
#[derive(Clone, Copy)]
pub struct Picoseconds(pub u32);

// A time in whole nanoseconds.
#[derive(Clone, Copy)]
pub struct Nanoseconds(pub u32);

// A count of clocks.
#[derive(Clone, Copy)]
pub struct Clocks(pub u32);

// A configuration as it is given (the paper's sheet): any numbers at all.
#[derive(Clone, Copy)]
pub struct Config {
    pub grade: u32,
    pub cl: u32,
    pub bl: u32,
    pub organisation: u32,
    pub period: Picoseconds,
    pub rbd: Clocks,
    pub rwd: Clocks,
    pub wrd: Clocks,
    pub rsc: Clocks,
    pub refc: Clocks,
    // The banks that the board drives: 8, or 4 where BA2 is driven as A14.
    pub wiring: u32,
}

// What an accepted configuration yields; nothing but `Config::timing` makes one. Every spacing is in clocks.
#[derive(Clone, Copy)]
pub struct Timing {
    cl: u32,
    bl: u32,
    organisation: u32,
    // Wired for four banks, and otherwise for eight.
    four: bool,
    rbd: u32,
    rwd: u32,
    wrd: u32,
    rsc: u32,
    refc: u32,
    rc: u32,
    wl: u32,
    // The longest time from a REF word to the next on the average of up to eight, rule 3 (the paper's D).
    refi: u32,
    // The least span of eight refresh intervals (the paper's W).
    window: u32,
    // The longest spacing between two reads or writes (the paper's S).
    spacing: u32,
}

// The least period in picoseconds: a row for grade 37 and one for grade 50, a column for each of CL 3, 4 and 5.
const LEAST_PERIOD: [[u32; 3]; 2] = [[5500, 4500, 3750], [6000, 5500, 5000]];

const GREATEST_PERIOD: u32 = 8500;

fn least_period(grade: u32, cl: u32) -> Picoseconds
    requires { (3 ≤ cl) × (cl ≤ 5) }
    ensures { result.0 ≡ least_period grade cl }
{
    let row = choose(grade == 37, 0, 1);
    let column = (cl - 3) as usize;
    Picoseconds(LEAST_PERIOD[row][column])
}

impl Config {
    // The institute's own configuration (the paper's sheet E).
    pub fn institute() -> Config
        ensures { result ≡ institute }
    {
        Config {
            grade: 37,
            cl: 4,
            bl: 4,
            organisation: 16,
            period: Picoseconds(5000),
            rbd: Clocks(2),
            rwd: Clocks(3),
            wrd: Clocks(1),
            rsc: Clocks(7),
            refc: Clocks(18),
            wiring: 8,
        }
    }

    fn part_fits(self) -> bool
        ensures { result ≡ part_fits self }
    {
        ((self.grade == 37) | (self.grade == 50))
            & ((3 <= self.cl) & (self.cl <= 5))
            & ((self.bl == 2) | (self.bl == 4))
            & ((self.organisation == 16) | (self.organisation == 8))
    }

    fn wiring_fits(self) -> bool
        ensures { result ≡ wiring_fits self }
    {
        (self.wiring == 8) | (self.wiring == 4)
    }

    fn period_fits(self) -> bool
        requires { (3 ≤ self.cl) × (self.cl ≤ 5) }
        ensures { result ≡ period_fits self }
    {
        let least = least_period(self.grade, self.cl);
        (least.0 <= self.period.0) & (self.period.0 <= GREATEST_PERIOD)
    }

    fn counts_fit(self) -> bool
        ensures { result ≡ counts_fit self }
    {
        ((2 <= self.rbd.0) & (self.rbd.0 <= 7))
            & ((1 <= self.rwd.0) & (self.rwd.0 <= 7))
            & ((1 <= self.wrd.0) & (self.wrd.0 <= 7))
            & ((2 <= self.rsc.0) & (self.rsc.0 <= 15))
            & ((15 <= self.refc.0) & (self.refc.0 <= 63))
    }

    fn refresh_fits(self) -> bool
        ensures { result ≡ refresh_fits self }
    {
        !((self.cl == 4) & (self.refc.0 < 18))
    }

    fn derived(self) -> Timing
        requires cl_nonzero { (0 < self.cl) × (0 < self.period.0) }
        requires rwd_bound { (self.rwd.0 ≤ 7) × (self.wrd.0 ≤ 7) }
        ensures { result ≡ derived self }
    {
        let refi = 3900000 / self.period.0;
        let window = 3200000 / self.period.0 + 1;
        let cycle = choose(self.cl == 5, 6, 5);
        let turnaround = (self.rwd.0 + 1).max(self.wrd.0 + 1);
        let spacing = cycle.max(self.rbd.0).max(turnaround);
        Timing {
            cl: self.cl,
            bl: self.bl,
            organisation: self.organisation,
            four: self.wiring == 4,
            rbd: self.rbd.0,
            rwd: self.rwd.0,
            wrd: self.wrd.0,
            rsc: self.rsc.0,
            refc: self.refc.0,
            rc: cycle,
            wl: self.cl - 1,
            refi,
            window,
            spacing,
        }
    }

    // The timing of an accepted configuration, or the refusal: 20, 34, 21, 22 and 33, tried in this order.
    pub fn timing(self) -> Result<Timing, Refusal>
        ensures { outcome_of result ≡ timing_of self }
    {
        if !self.part_fits() {
            return Err(Refusal::Part);
        }
        if !self.wiring_fits() {
            return Err(Refusal::Wiring);
        }
        if !self.period_fits() {
            return Err(Refusal::Period);
        }
        if !self.counts_fit() {
            return Err(Refusal::Count);
        }
        if !self.refresh_fits() {
            return Err(Refusal::ShortRefresh);
        }
        Ok(self.derived())
    }
}
