// A configuration by the numbers that were stored before there was a wiring.
ghost use Rattle.std.specs.Prelude.{◌≡◌};
ghost use Rattle.config.specs.Configuration.{config_of};

use crate::Config;

impl Config {
    // The configuration that ten numbers make: it has eight banks.
    pub fn from_numbers(
        grade: u32,
        cl: u32,
        bl: u32,
        organisation: u32,
        period: u32,
        rbd: u32,
        rwd: u32,
        wrd: u32,
        rsc: u32,
        refc: u32,
    ) -> Config
        ensures { result ≡ config_of grade cl bl organisation period rbd rwd wrd rsc refc }
    {
        Config::wired(
            grade,
            cl,
            bl,
            organisation,
            period,
            rbd,
            rwd,
            wrd,
            rsc,
            refc,
            8,
        )
    }
}
