// Standard input, read to its end.
#![tactic(auto)]

ghost use Rattle.std.specs.Prelude.{◌≡◌, is_err, Some};
ghost use Rattle.input.specs.Reading.{failed_text, count_of, came, ReadPromised};

use std::error::Error;
use std::fmt;
use std::io::{self, Read, Stdin};

// A read failed behind so many bytes: they are not the whole input.
#[derive(Clone, Copy, Debug, PartialEq, Eq)]
pub struct ReadFailed {
    pub count: usize,
}

impl fmt::Display for ReadFailed {
    ghost output = { λ e. Some (failed_text e) };

    fn fmt<W: fmt::Write>(&self, f: &mut fmt::Formatter<W>) -> fmt::Result {
        write!(f, "a read failed behind {} bytes", self.count)
    }
}

impl Error for ReadFailed {}

// How many bytes came, behind so many, or that the read failed.
fn came(count: usize, answer: io::Result<usize>) -> Result<usize, ReadFailed>
    ensures { result ≡ came count answer }
{
    answer.map_err(|_| ReadFailed { count })
}

// Reads until the buffer is full, the input ends or a read fails; how many bytes were read.
pub fn read(mut stdin: Stdin, buffer: &mut [u8]) -> Result<usize, ReadFailed>
    ensures { ReadPromised (count_of result) (is_err result) buffer.new }
{
    let mut count = 0;
    while count < buffer.len() {
        let more = came(count, stdin.read(&mut buffer[count..]))?;
        if more == 0 {
            break;
        }
        count += more;
    }
    Ok(count)
}
