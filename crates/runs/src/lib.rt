// Runs: words one behind the other that agree in their upper bits. The forms are chosen for speed. A word is tested by one shift and one
// comparison, with numbers that no loop changes. The loops over eight, sixteen and 29 words have no branch that goes by a word and a fixed
// number of turns, and the functions that hold them are called by one function each: so the compiler unrolls them there and tests
// neighbouring words at once.
#![tactic(auto)]

ghost use Rattle.std.specs.Prelude.{◌≡◌, true, ◌+◌, ◌/◌, ◌%◌, ◌≤◌, ◌<◌, min, length, get_or, drop};
ghost use Rattle.words.specs.Words.{words_of};
ghost use Rattle.runs.specs.Runs.{agrees, leading, run_end, marks, marks_from};

// Words that agree in their upper bits: each is `top` without its `shift` lowest bits.
#[derive(Clone, Copy)]
pub struct Upper {
    pub shift: u32,
    pub top: u32,
    pub ghost inside: { shift < 32 },
}

impl Upper {
    // Of all but the lowest bits, as many as `shift` modulo 32.
    pub fn new(shift: u32, top: u32) -> Upper
        ensures { (result.shift ≡ shift % 32) × (result.top ≡ top) }
    {
        let shift = shift % 32;
        Upper { shift, top }
    }

    // Whether the word at an index agrees.
    fn agrees(self, bytes: &[u8], at: usize) -> bool
        requires { at < length bytes.now / 4 }
        ensures { result ≡ agrees self.shift self.top (get_or (words_of bytes.now) at 0) }
    {
        words::word_at(bytes, at) >> self.shift == self.top
    }
}

// True only if the eight words from an index on agree.
fn eight_agree(bytes: &[u8], at: usize, upper: Upper) -> bool
    requires { at + 8 ≤ length bytes.now / 4 }
    ensures { result ≡ true → 8 ≤ leading upper.shift upper.top (drop at (words_of bytes.now)) }
{
    let mut all = true;
    for count in 0..8 {
        all &= upper.agrees(bytes, at + count);
    }
    all
}

// A bit for each of the `N` words from an index on that does not agree, the lowest for the first word. The words are those of a part whose
// length is known where this is called, so the compiler sees that each is there, and tests four at once.
fn marks_at<const N: usize>(bytes: &[u8], at: usize, upper: Upper) -> u32
    requires { (at + N ≤ length bytes.now / 4) × (N ≤ 32) }
    ensures { result ≡ marks upper.shift upper.top (words_of bytes.now) at N }
{
    let start = 4 * at;
    let part = &bytes[start..start + 4 * N];
    let mut marks: u32 = 0;
    for count in 0..N {
        if !upper.agrees(part, count) {
            marks |= 1 << count;
        }
    }
    marks
}

// How many of the sixteen words from an index on come before the first that does not agree. How long a run is cannot be foreseen, so a
// branch at each word would often go wrong.
fn leading(bytes: &[u8], at: usize, upper: Upper) -> usize
    requires { at + 16 ≤ length bytes.now / 4 }
    ensures { result ≡ min 16 (leading upper.shift upper.top (drop at (words_of bytes.now))) }
{
    let marks = marks_at::<16>(bytes, at, upper);
    (marks | 0x10000).trailing_zeros() as usize
}

// Where a run ends, by one word a turn.
fn past_singly(bytes: &[u8], from: usize, stop: usize, upper: Upper) -> usize
    requires { stop ≤ length bytes.now / 4 }
    ensures { result ≡ run_end upper.shift upper.top stop (words_of bytes.now) from }
{
    for at in from..stop {
        if !upper.agrees(bytes, at) {
            return at;
        }
    }
    stop.max(from)
}

// An index from which the run ends where it does from the first, by eight words a turn.
fn past_eights(bytes: &[u8], from: usize, stop: usize, upper: Upper) -> usize
    requires { (stop ≤ length bytes.now / 4) × (from ≤ stop) }
    ensures { let ws = words_of bytes.now in
        (result ≤ stop) × (run_end upper.shift upper.top stop ws result ≡ run_end upper.shift upper.top stop ws from) }
{
    let mut at = from;
    while at + 8 <= stop {
        if !eight_agree(bytes, at, upper) {
            return at;
        }
        at += 8;
    }
    at
}

// Where the run from an index on ends, of words that are `top` without their lowest bits, as many as `shift` modulo 32. Up to sixteen
// words are passed at once, which are most runs between commands; then eight a turn, and what is left one by one.
pub fn past_run(bytes: &[u8], from: usize, end: usize, shift: u32, top: u32) -> usize
    ensures { result ≡ run_end (shift % 32) top end (words_of bytes.now) from }
{
    let upper = Upper::new(shift, top);
    let stop = end.min(bytes.len() / 4);
    if stop <= from {
        return from;
    }
    if stop - from < 16 {
        return past_singly(bytes, from, stop, upper);
    }
    let lead = leading(bytes, from, upper);
    if lead < 16 {
        return from + lead;
    }
    let at = past_eights(bytes, from + 16, stop, upper);
    past_singly(bytes, at, stop, upper)
}

// A bit for each of the 58 words from an index on that does not agree, where the bytes hold them all, and otherwise 0. Both halves are
// asked for 0 before they are put together: else the compiler makes numbers of 64 bits of all bits, and tests two words at once. With
// `u64::from` for `as` it tests fewer at once, too. The first of a half, whose bit is 1, it tests by itself: hence 29 words, one more than
// seven times four.
pub fn marks_from(bytes: &[u8], from: usize, shift: u32, top: u32) -> u64
    ensures { result ≡ marks_from (shift % 32) top (words_of bytes.now) from }
{
    let upper_bits = Upper::new(shift, top);
    let count = bytes.len() / 4;
    if count < 58 || count - 58 < from {
        return 0;
    }
    let low = marks_at::<29>(bytes, from, upper_bits);
    let high = marks_at::<29>(bytes, from + 29, upper_bits);
    if low == 0 && high == 0 {
        return 0;
    }
    low as u64 + high as u64 * 0x20000000
}
