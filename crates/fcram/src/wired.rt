// The exam site's call with the wiring.
ghost use Rattle.std.specs.Prelude.{◌≡◌};
ghost use Rattle.rules.specs.Verdict.{check_bytes_of};
ghost use Rattle.config.specs.Configuration.{wired_of};
ghost use Rattle.fcram.specs.Number.{number_of};

use crate::checked;
use config::Config;

// Checks a trace on the configuration that the eleven numbers make.
pub fn fcram_check_wired(
    grade: u32,
    cl: u32,
    bl: u32,
    organisation: u32,
    period: u32,
    rbd: u32,
    rwd: u32,
    wrd: u32,
    rsc: u32,
    refc: u32,
    wiring: u32,
    trace: &[u8],
) -> u32
    ensures { result ≡ number_of
        (check_bytes_of (wired_of grade cl bl organisation period rbd rwd wrd rsc refc wiring) trace.now) }
{
    let config = Config::wired(
        grade,
        cl,
        bl,
        organisation,
        period,
        rbd,
        rwd,
        wrd,
        rsc,
        refc,
        wiring,
    );
    checked(config, trace)
}
