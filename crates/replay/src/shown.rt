// What is written of the library's values.
use checker::{Breach, Checker};
use command::{Operation, Pair, Request};
use config::Config;
use controller::Controller;
use counts::CommandCounts;
use duration::Duration;
use reading::Decoded;
use scheduler::OpenPair;
use stamps::Timestamps;
use std::fmt;

// A value as it is written: its numbers, and of an answer a word before them.
#[derive(Clone, Copy)]
pub(crate) struct Shown<T>(pub(crate) T);

impl fmt::Display for Shown<Request> {
    fn fmt<W: fmt::Write>(&self, f: &mut fmt::Formatter<W>) -> fmt::Result {
        let r = self.0;
        let write = u32::from(r.write);
        write!(
            f,
            "{write} {} {} {} {} {}",
            r.bank, r.row, r.column, r.lower, r.upper
        )
    }
}

impl fmt::Display for Shown<Operation> {
    fn fmt<W: fmt::Write>(&self, f: &mut fmt::Formatter<W>) -> fmt::Result {
        match self.0 {
            Operation::Access(request) => write!(f, "access {}", Shown(request)),
            Operation::Regular(a3) => write!(f, "regular {}", u32::from(a3)),
            Operation::Extended(value) => write!(f, "extended {value}"),
            Operation::Refresh => write!(f, "refresh"),
        }
    }
}

// The operation of a pair, and the clocks of its data.
impl fmt::Display for Shown<Decoded> {
    fn fmt<W: fmt::Write>(&self, f: &mut fmt::Formatter<W>) -> fmt::Result {
        let Decoded {
            operation,
            latency,
            burst,
        } = self.0;
        write!(f, "{} {} {}", Shown(operation), latency.0, burst.0)
    }
}

impl fmt::Display for Shown<Pair> {
    fn fmt<W: fmt::Write>(&self, f: &mut fmt::Formatter<W>) -> fmt::Result {
        write!(f, "words {} {}", self.0.first, self.0.second)
    }
}

impl fmt::Display for Shown<Breach> {
    fn fmt<W: fmt::Write>(&self, f: &mut fmt::Formatter<W>) -> fmt::Result {
        write!(f, "breach {} {}", self.0.clock, self.0.number)
    }
}

// The whole nanoseconds and the picoseconds left over.
impl fmt::Display for Shown<Duration> {
    fn fmt<W: fmt::Write>(&self, f: &mut fmt::Formatter<W>) -> fmt::Result {
        write!(f, "time {} {}", self.0.whole.0, self.0.rest.0)
    }
}

impl fmt::Display for Shown<CommandCounts> {
    fn fmt<W: fmt::Write>(&self, f: &mut fmt::Formatter<W>) -> fmt::Result {
        let c = self.0;
        write!(
            f,
            "{} {} {} {} {} {}",
            c.reads, c.writes, c.modes, c.refreshes, c.desls, c.clocks.0
        )
    }
}

// Each number behind a blank.
impl<const N: usize> fmt::Display for Shown<[u32; N]> {
    fn fmt<W: fmt::Write>(&self, f: &mut fmt::Formatter<W>) -> fmt::Result {
        for number in self.0 {
            write!(f, " {number}")?;
        }
        Ok(())
    }
}

// The eleven numbers of a sheet, each behind a blank.
impl fmt::Display for Shown<Config> {
    fn fmt<W: fmt::Write>(&self, f: &mut fmt::Formatter<W>) -> fmt::Result {
        let numbers = <[u32; 11]>::from(self.0);
        write!(f, "{}", Shown(numbers))
    }
}

impl fmt::Display for Shown<Timestamps> {
    fn fmt<W: fmt::Write>(&self, f: &mut fmt::Formatter<W>) -> fmt::Result {
        let s = self.0;
        write!(
            f,
            "{} {} {} {} {}",
            s.extended, s.regular, s.mode, s.read, s.write
        )?;
        write!(f, "{}{}", Shown(s.banks), Shown(s.refs))
    }
}

impl fmt::Display for Shown<Checker> {
    fn fmt<W: fmt::Write>(&self, f: &mut fmt::Formatter<W>) -> fmt::Result {
        let c = self.0;
        write!(f, "checker{} {} {} ", Shown(c.config), c.clock, c.met)?;
        write!(
            f,
            "{} {} {}",
            Shown(c.stamps),
            c.breach.clock,
            c.breach.number
        )
    }
}

// The number that stands for it in a script. None does for the last four places, which no call makes: they come out as 0 to 3.
impl fmt::Display for Shown<OpenPair> {
    fn fmt<W: fmt::Write>(&self, f: &mut fmt::Formatter<W>) -> fmt::Result {
        let number = match self.0 {
            OpenPair::Nothing => 0,
            OpenPair::Extended => 1,
            OpenPair::Regular => 2,
            OpenPair::Refresh => 3,
            OpenPair::Waiting(place) => place.wrapping_add(4),
        };
        write!(f, "{number}")
    }
}

impl fmt::Display for Shown<Controller> {
    fn fmt<W: fmt::Write>(&self, f: &mut fmt::Formatter<W>) -> fmt::Result {
        let c = self.0;
        write!(
            f,
            "controller{} {} {} ",
            Shown(c.config),
            c.clock,
            Shown(c.opened)
        )?;
        write!(f, "{} {}", Shown(c.stamps), c.count)?;
        for request in c.waiting {
            write!(f, " {}", Shown(request))?;
        }
        Ok(())
    }
}
