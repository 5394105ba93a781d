// The figures of a timing, for other crates to read.
ghost use Rattle.std.specs.Prelude.{◌≡◌};
ghost use Rattle.config.specs.Configuration.{figures_of};

use crate::Timing;

// The figures that a timing holds, under the same names. A timing's own fields are private, so that nothing but `Config::timing` makes one.
#[derive(Clone, Copy)]
pub struct Figures {
    pub cl: u32,
    pub bl: u32,
    pub organisation: u32,
    pub four: bool,
    pub rbd: u32,
    pub rwd: u32,
    pub wrd: u32,
    pub rsc: u32,
    pub refc: u32,
    pub rc: u32,
    pub wl: u32,
    pub refi: u32,
    pub window: u32,
    pub spacing: u32,
}

impl Timing {
    pub fn figures(self) -> Figures
        ensures { result ≡ figures_of self }
    {
        Figures {
            cl: self.cl,
            bl: self.bl,
            organisation: self.organisation,
            four: self.four,
            rbd: self.rbd,
            rwd: self.rwd,
            wrd: self.wrd,
            rsc: self.rsc,
            refc: self.refc,
            rc: self.rc,
            wl: self.wl,
            refi: self.refi,
            window: self.window,
            spacing: self.spacing,
        }
    }
}
