// The weight of each pin in a word: a pin is high where the word's quotient by it is odd. And the numbers that drive pins.
ghost use Rattle.std.specs.Prelude.{◌≡◌, cond, ◌≤◌};
ghost use Rattle.command.specs.Pins.{level, high_by};

pub const A0: u32 = 0x1;

pub const A1: u32 = 0x2;

pub const A3: u32 = 0x8;

pub const A4: u32 = 0x10;

pub const A7: u32 = 0x80;

pub const A11: u32 = 0x800;

pub const A12: u32 = 0x1000;

pub const A13: u32 = 0x2000;

pub const BA0: u32 = 0x4000;

pub const BA1: u32 = 0x8000;

pub const BA2: u32 = 0x10000;

pub const FN: u32 = 0x20000;

pub const CS: u32 = 0x40000;

pub const PD: u32 = 0x80000;

// The pin of this weight is high; there is none of weight 0.
pub fn high(word: u32, pin: u32) -> bool
    ensures { result ≡ high_by pin word }
{
    pin != 0 && word / pin % 2 == 1
}

// A pin's level as a number.
pub fn bit(high: bool) -> u32
    ensures { (result ≡ level high) × (result ≤ 1) }
{
    u32::from(high)
}

// n where the test holds, and otherwise 0.
pub fn kept(test: bool, n: u32) -> u32
    ensures { (result ≡ cond test n 0) × (result ≤ n) }
{
    if test { n } else { 0 }
}
