// How long a trace lasts in nanoseconds, from its word count and the sheet's period.
#![tactic(auto)]

ghost use Rattle.std.specs.Prelude.{◌≡◌, ◌*◌, ◌≤◌};
ghost use Rattle.basics.specs.Answers.{outcome_of};
ghost use Rattle.duration.specs.Duration.{in_nanoseconds, duration_of};

use basics::{LIMIT, Refusal};
use config::{Config, Nanoseconds, Picoseconds};

// A length in time: whole nanoseconds, and the picoseconds left over; of an answer, fewer than 1,000.
#[derive(Clone, Copy)]
pub struct Duration {
    pub whole: Nanoseconds,
    pub rest: Picoseconds,
}

// So many periods in picoseconds, which 32 bits do not hold.
fn picoseconds(count: usize, period: Picoseconds) -> u64
    requires { (count ≤ 16777216) × (period.0 ≤ 8500) }
    ensures { (result ≡ count * period.0) × (result ≤ 16777216 * 8500) }
{
    count as u64 * u64::from(period.0)
}

fn in_nanoseconds(picoseconds: u64) -> Duration
    requires { picoseconds ≤ 16777216 * 8500 }
    ensures { result ≡ in_nanoseconds picoseconds }
{
    Duration {
        whole: Nanoseconds((picoseconds / 1000) as u32),
        rest: Picoseconds((picoseconds % 1000) as u32),
    }
}

// How long a trace of so many words lasts on the sheet. Refuses by the sheet's numbers, then by 32 for more than 16,777,216 words.
pub fn trace_duration(config: Config, count: usize) -> Result<Duration, Refusal>
    ensures { outcome_of result ≡ duration_of config count }
{
    config.timing()?;
    if count > LIMIT as usize {
        return Err(Refusal::WordCount);
    }
    Ok(in_nanoseconds(picoseconds(count, config.period)))
}
