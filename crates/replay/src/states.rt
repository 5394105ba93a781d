// States given number by number.
use crate::script::Script;
use checker::{Breach, Checker};
use command::Request;
use controller::Controller;
use scheduler::OpenPair;
use stamps::Timestamps;

impl Script<'_> {
    fn stamps(&mut self) -> Option<Timestamps> {
        let [extended, regular, mode, read, write] = self.numbers::<5>()?;
        Some(Timestamps {
            extended,
            regular,
            mode,
            read,
            write,
            banks: self.numbers()?,
            refs: self.numbers()?,
        })
    }

    pub(crate) fn checker(&mut self) -> Option<Checker> {
        let config = self.wired()?;
        let [clock, met] = self.numbers::<2>()?;
        let stamps = self.stamps()?;
        let [at, number] = self.numbers::<2>()?;
        Some(Checker {
            config,
            clock,
            met,
            stamps,
            breach: Breach { clock: at, number },
        })
    }

    // From 4 on it is that of a waiting request, and the rest its place.
    fn opened(&mut self) -> Option<OpenPair> {
        Some(match self.number()? {
            0 => OpenPair::Nothing,
            1 => OpenPair::Extended,
            2 => OpenPair::Regular,
            3 => OpenPair::Refresh,
            number => OpenPair::Waiting(number - 4),
        })
    }

    // All sixteen places, whatever the count.
    fn waiting(&mut self) -> Option<[Request; 16]> {
        let mut waiting = [self.request()?; 16];
        for request in &mut waiting[1..] {
            *request = self.request()?;
        }
        Some(waiting)
    }

    pub(crate) fn controller(&mut self) -> Option<Controller> {
        Some(Controller {
            config: self.wired()?,
            clock: self.number()?,
            opened: self.opened()?,
            stamps: self.stamps()?,
            count: self.number()?,
            waiting: self.waiting()?,
        })
    }
}
