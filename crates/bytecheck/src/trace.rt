// A trace as it is checked.
ghost use Rattle.std.specs.Prelude.{◌≡◌, ◌≤◌, ◌/◌, length};
ghost use Rattle.words.specs.Words.{word_at};

use config::Timing;

// The words, as bytes, and the timing that they are checked by. There are no more words than a trace may have.
#[derive(Clone, Copy)]
pub(crate) struct Trace<'a> {
    pub(crate) timing: Timing,
    pub(crate) bytes: &'a [u8],
    pub(crate) ghost short: { length bytes.now / 4 ≤ 16777216 },
}

impl Trace<'_> {
    // The word at a clock.
    pub(crate) fn word(self, clock: u32) -> u32
        ensures { result ≡ word_at self.entry.bytes.now clock }
    {
        words::word_at(self.bytes, clock as usize)
    }
}
