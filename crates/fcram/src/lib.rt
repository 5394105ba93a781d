// The exam site's calls. The crate fcram_c exports them to programs in C.
#![tactic(auto)]

pub mod wired;

ghost use Rattle.std.specs.Prelude.{◌≡◌};
ghost use Rattle.rules.specs.Verdict.{check_bytes_of};
ghost use Rattle.checker.specs.Steps.{verdict_outcome};
ghost use Rattle.config.specs.Configuration.{config_of};
ghost use Rattle.fcram.specs.Number.{number_of};
ghost use Rattle.fcram.specs.Range.{Small};

use basics::Refusal;
use checker::Breach;
use config::Config;

// A verdict as one number (RULES 10.1).
fn number(verdict: Result<Option<Breach>, Refusal>) -> u32
    requires { Small (verdict_outcome verdict) }
    ensures { result ≡ number_of (verdict_outcome verdict) }
{
    match verdict {
        Ok(None) => 0,
        Ok(Some(breach)) => breach.clock * 64 + breach.number,
        Err(why) => why.number(),
    }
}

// The verdict on a trace of little-endian words, as its number.
pub(crate) fn checked(config: Config, trace: &[u8]) -> u32
    ensures { result ≡ number_of (check_bytes_of config trace.now) }
{
    number(bytecheck::check_bytes(config, trace))
}

// Checks a trace on the configuration that the ten numbers make, which has eight banks. The numbers stay arguments, one by one, as programs
// in C are compiled with them.
pub fn fcram_check(
    grade: u32,
    cl: u32,
    bl: u32,
    organisation: u32,
    period: u32,
    rbd: u32,
    rwd: u32,
    wrd: u32,
    rsc: u32,
    refc: u32,
    trace: &[u8],
) -> u32
    ensures { result ≡ number_of (check_bytes_of (config_of grade cl bl organisation period rbd rwd wrd rsc refc) trace.now) }
{
    let config = Config::from_numbers(
        grade,
        cl,
        bl,
        organisation,
        period,
        rbd,
        rwd,
        wrd,
        rsc,
        refc,
    );
    checked(config, trace)
}
