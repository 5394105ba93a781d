// A line of text that grows at its end. What no longer fits is left out.
#![tactic(auto)]

ghost use Rattle.std.specs.Prelude.{◌≡◌};
ghost use Rattle.line.specs.Lines.{empty_line, pushed, appended};
ghost use Rattle.line.specs.Text.{decimal};

// Room for 40 bytes; the text is the first `len` of them. Each call answers any line that can be written down, also one whose `len` is
// past 40: so both fields stay public, and no call asks for a bound.
#[derive(Clone, Copy)]
pub struct Line {
    pub bytes: [u8; 40],
    pub len: usize,
}

// The powers of ten that a number of 32 bits can reach, down to 10.
const POWERS: [u32; 9] = [
    1000000000, 100000000, 10000000, 1000000, 100000, 10000, 1000, 100, 10,
];

impl Line {
    // A line without text.
    pub fn empty() -> Line
        ensures { result ≡ empty_line }
    {
        Line {
            bytes: [0; 40],
            len: 0,
        }
    }

    // One byte more, where there is room for it.
    pub fn push(mut self, byte: u8) -> Line
        ensures { result ≡ pushed self byte }
    {
        if self.len < 40 {
            self.bytes[self.len] = byte;
            self.len += 1;
        }
        self
    }

    // A number in decimal: a digit for each of these powers of ten that it reaches, and the last digit always.
    pub fn number(self, n: u32) -> Line
        ensures { result ≡ appended self (decimal n) }
    {
        let mut line = self;
        for power in POWERS {
            if power <= n {
                line = line.push(b'0' + (n / power % 10) as u8);
            }
        }
        line.push(b'0' + (n % 10) as u8)
    }

    // A piece of text.
    pub fn piece(self, piece: &[u8]) -> Line
        ensures { result ≡ appended self piece.now }
    {
        let mut line = self;
        for &byte in piece {
            line = line.push(byte);
        }
        line
    }
}
