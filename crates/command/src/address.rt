// Bank and row on the first word of a read or a write, with four banks, where BA2 carries bit 14 of the row, or with eight.
ghost use Rattle.std.specs.Prelude.{◌≡◌, ◌≤◌, ◌<◌};
ghost use Rattle.command.specs.Address.{bank_of, row_of, address_fits, address_at};

use crate::pins::{A0, BA0, BA2};

// The bank on a first word.
pub fn bank(four: bool, first: u32) -> u32
    ensures { (result ≡ bank_of four first) × (result < 8) }
{
    if four {
        first / BA0 % 4
    } else {
        first / BA0 % 8
    }
}

// The row on a first word.
pub fn row(four: bool, first: u32) -> u32
    ensures { result ≡ row_of four first }
{
    if four {
        first / BA2 % 2 * 16384 + first / A0 % 16384
    } else {
        first / A0 % 16384
    }
}

// A bank and a row are in range.
pub fn address_fits(four: bool, bank: u32, row: u32) -> bool
    ensures { result ≡ address_fits four bank row }
{
    if four {
        (bank <= 3) & (row <= 32767)
    } else {
        (bank <= 7) & (row <= 16383)
    }
}

// A first word's part with a bank and a row, each on its pins, which keep its low bits.
pub fn address(four: bool, bank: u32, row: u32) -> u32
    ensures { (result ≡ address_at four bank row) × (result ≤ 131071) }
{
    if four {
        bank % 4 * BA0 + row / 16384 % 2 * BA2 + row % 16384 * A0
    } else {
        bank % 8 * BA0 + row % 16384 * A0
    }
}
