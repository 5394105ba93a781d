// A script's words, and what they stand for.
use command::{Operation, Pair, Request};
use config::Config;

// The words that are left. What is read is taken off their front; None where they end before it does.
#[derive(Drop)]
pub(crate) struct Script<'a>(pub(crate) &'a [u32]);

impl<'a> Script<'a> {
    pub(crate) fn number(&mut self) -> Option<u32> {
        let [number] = self.numbers::<1>()?;
        Some(number)
    }

    pub(crate) fn numbers<const N: usize>(&mut self) -> Option<[u32; N]> {
        let (numbers, rest) = self.0.split_first_chunk()?;
        self.0 = rest;
        Some(*numbers)
    }

    // The words of a trace, behind their count.
    pub(crate) fn trace(&mut self) -> Option<&'a [u32]> {
        let count = self.number()?;
        let (words, rest) = self.0.split_at_checked(count as usize)?;
        self.0 = rest;
        Some(words)
    }

    // A sheet of ten numbers.
    pub(crate) fn config(&mut self) -> Option<Config> {
        let [
            grade,
            cl,
            bl,
            organisation,
            period,
            rbd,
            rwd,
            wrd,
            rsc,
            refc,
        ] = self.numbers::<10>()?;
        Some(Config::from_numbers(
            grade,
            cl,
            bl,
            organisation,
            period,
            rbd,
            rwd,
            wrd,
            rsc,
            refc,
        ))
    }

    // A sheet of eleven numbers: the ten, and its wiring.
    pub(crate) fn wired(&mut self) -> Option<Config> {
        let sheet = self.numbers::<11>()?;
        Some(sheet.into())
    }

    pub(crate) fn request(&mut self) -> Option<Request> {
        let [write, bank, row, column, lower, upper] = self.numbers::<6>()?;
        let write = write != 0;
        Some(Request {
            write,
            bank,
            row,
            column,
            lower,
            upper,
        })
    }

    pub(crate) fn pair(&mut self) -> Option<Pair> {
        let [first, second] = self.numbers::<2>()?;
        Some(Pair { first, second })
    }

    // Its kind, and what goes with that.
    pub(crate) fn operation(&mut self) -> Option<Operation> {
        match self.number()? {
            0 => Some(Operation::Access(self.request()?)),
            1 => Some(Operation::Regular(self.number()? != 0)),
            2 => Some(Operation::Extended(self.number()?)),
            3 => Some(Operation::Refresh),
            _ => None,
        }
    }
}
