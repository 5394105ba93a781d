// A configuration as its eleven numbers in one array, in the order of RULES 1.1, and back.
ghost use Rattle.std.specs.Prelude.{◌≡◌};
ghost use Rattle.config.specs.Configuration.{sheet_of, numbers_of};

use crate::Config;

impl From<[u32; 11]> for Config {
    ghost from_gives = { λ numbers config. config ≡ sheet_of numbers };

    fn from(numbers: [u32; 11]) -> Config {
        let [
            grade,
            cl,
            bl,
            organisation,
            period,
            rbd,
            rwd,
            wrd,
            rsc,
            refc,
            wiring,
        ] = numbers;
        Config::wired(
            grade,
            cl,
            bl,
            organisation,
            period,
            rbd,
            rwd,
            wrd,
            rsc,
            refc,
            wiring,
        )
    }
}

impl From<Config> for [u32; 11] {
    ghost from_gives = { λ config numbers. numbers ≡ numbers_of config };

    fn from(config: Config) -> [u32; 11] {
        [
            config.grade,
            config.cl,
            config.bl,
            config.organisation,
            config.period.0,
            config.rbd.0,
            config.rwd.0,
            config.wrd.0,
            config.rsc.0,
            config.refc.0,
            config.wiring,
        ]
    }
}
