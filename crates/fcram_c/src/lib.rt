// The exam site's calls, for programs in C: include/fcram.h declares them. Each is the call of fcram by the same name, clause for clause.
#![tactic(auto)]

ghost use Rattle.std.specs.Prelude.{◌≡◌};
ghost use Rattle.rules.specs.Verdict.{check_bytes_of};
ghost use Rattle.config.specs.Configuration.{config_of, wired_of};
ghost use Rattle.fcram.specs.Number.{number_of};

// Checks a trace on the configuration that the ten numbers make, which has eight banks.
#[unsafe(no_mangle)]
pub extern "C" fn fcram_check(
    grade: u32,
    cl: u32,
    bl: u32,
    organisation: u32,
    period: u32,
    rbd: u32,
    rwd: u32,
    wrd: u32,
    rsc: u32,
    refc: u32,
    trace: &[u8],
) -> u32
    ensures { result ≡ number_of (check_bytes_of (config_of grade cl bl organisation period rbd rwd wrd rsc refc) trace.now) }
{
    fcram::fcram_check(
        grade,
        cl,
        bl,
        organisation,
        period,
        rbd,
        rwd,
        wrd,
        rsc,
        refc,
        trace,
    )
}

// Checks a trace on the configuration that the eleven numbers make.
#[unsafe(no_mangle)]
pub extern "C" fn fcram_check_wired(
    grade: u32,
    cl: u32,
    bl: u32,
    organisation: u32,
    period: u32,
    rbd: u32,
    rwd: u32,
    wrd: u32,
    rsc: u32,
    refc: u32,
    wiring: u32,
    trace: &[u8],
) -> u32
    ensures { result ≡ number_of
        (check_bytes_of (wired_of grade cl bl organisation period rbd rwd wrd rsc refc wiring) trace.now) }
{
    fcram::wired::fcram_check_wired(
        grade,
        cl,
        bl,
        organisation,
        period,
        rbd,
        rwd,
        wrd,
        rsc,
        refc,
        wiring,
        trace,
    )
}
