// What a pair of words stands for.

// A read or a write of one burst. `lower` and `upper` are the words that each lane writes: 0 where nothing is written, by a read, or by 8
// in the upper.
#[derive(Clone, Copy)]
pub struct Request {
    pub write: bool,
    pub bank: u32,
    pub row: u32,
    pub column: u32,
    pub lower: u32,
    pub upper: u32,
}

// What a pair is read to and written from.
#[derive(Clone, Copy)]
pub enum Operation {
    Access(Request),
    // A regular mode register set, with the level of A3.
    Regular(bool),
    // An extended mode register set, with A1 to A6 as a number.
    Extended(u32),
    Refresh,
}

// The words of two clocks, one after the other.
#[derive(Clone, Copy)]
pub struct Pair {
    pub first: u32,
    pub second: u32,
}
