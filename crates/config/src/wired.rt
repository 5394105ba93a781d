// A configuration by its numbers.
ghost use Rattle.std.specs.Prelude.{◌≡◌};
ghost use Rattle.config.specs.Configuration.{wired_of};

use crate::{Clocks, Config, Picoseconds};

impl Config {
    // The configuration that eleven numbers make.
    pub fn wired(
        grade: u32,
        cl: u32,
        bl: u32,
        organisation: u32,
        period: u32,
        rbd: u32,
        rwd: u32,
        wrd: u32,
        rsc: u32,
        refc: u32,
        wiring: u32,
    ) -> Config
        ensures { result ≡ wired_of grade cl bl organisation period rbd rwd wrd rsc refc wiring }
    {
        Config {
            grade,
            cl,
            bl,
            organisation,
            period: Picoseconds(period),
            rbd: Clocks(rbd),
            rwd: Clocks(rwd),
            wrd: Clocks(wrd),
            rsc: Clocks(rsc),
            refc: Clocks(refc),
            wiring,
        }
    }
}
