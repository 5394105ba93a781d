// Reads and writes, with and without DESL words between them. The forms are chosen for speed: the two words of a pair are one number, and
// what a pair changes is set in place, in arrays by bank and by kind, so that no branch and no choice goes by reads and writes. Of rule 8
// the last pair alone is asked, since it was itself far enough from those before it. The lines that take a pair stand in both loops: as one
// method on a track they took 18 % more instructions where reads and writes are dense.
ghost use Rattle.std.specs.Prelude.{◌≡◌, ◌≤◌, ◌/◌, length};
ghost use Rattle.words.specs.Words.{words_of};
ghost use Rattle.bytecheck.specs.Passed.{Passed};
ghost use Rattle.bytecheck.specs.Pairs.{Tracked, track_at};

use crate::quick::{Limits, clear};
use crate::trace::Trace;
use command::address::bank;
use runs::Upper;
use stamps::Timestamps;

// The DESL words: PD and CS, above 18 bits, are high.
pub(crate) const DESLS: Upper = Upper { shift: 18, top: 3 };

// The marks of 29 pairs without a gap.
const GAPLESS: u64 = 0x155555555555555;

// A clock where nothing is met, and what is kept of the words before it.
#[derive(Clone, Copy)]
pub(crate) struct Track {
    pub(crate) clock: u64,
    // Where the last read or write closed, and twice whether it read. Before the first of them a clock from which on either is allowed,
    // and 4.
    pub(crate) last: u64,
    pub(crate) row: usize,
    // Where the last write closed, and the last read.
    pub(crate) accesses: [u32; 2],
    // All else. Of the last read and write these are out of date.
    pub(crate) stamps: Timestamps,
}

impl Trace<'_> {
    // Passes over reads and writes that stand one right behind the other. A loop of its own, in which nothing waits for where a gap ends.
    pub(crate) fn past_pairs(self, from: Track, end: u64) -> Track
        requires { (end ≤ length self.bytes.now / 4) × Tracked self.timing end from }
        ensures { Tracked self.entry.timing end result
            × Passed self.entry.timing (words_of self.entry.bytes.now) (track_at from) (track_at result) }
    {
        let limits = Limits::of(self.timing);
        let mut track = from;
        while track.clock + 1 < end {
            let closing = track.clock + 1;
            let pair = words::pair_to(self.bytes, closing as usize);
            let first = (pair % 0x100000000) as u32;
            let bank = bank(self.timing.figures().four, first) as usize;
            let kind = (first / 0x20000 % 2) as usize;
            let allowed = track.last + limits.spacings[track.row + kind];
            if !clear(limits, track.stamps.banks[bank], allowed, closing, pair) {
                break;
            }
            track.stamps.banks[bank] = closing as u32;
            track.accesses[kind] = closing as u32;
            track.last = closing;
            track.row = 2 * kind;
            track.clock = closing + 1;
        }
        track
    }

    // Passes over reads and writes with DESL words between them, 58 words at a time. Each word that is neither DESL nor a LAL is marked by
    // a bit, and the lowest bit says where the next pair is, so the length of a gap decides no branch. Ends where there are no gaps, or no
    // pairs.
    pub(crate) fn past_gaps(self, from: Track, end: u64) -> Track
        requires { (end ≤ length self.bytes.now / 4) × Tracked self.timing end from }
        ensures { Tracked self.entry.timing end result
            × Passed self.entry.timing (words_of self.entry.bytes.now) (track_at from) (track_at result) }
    {
        let limits = Limits::of(self.timing);
        let mut track = from;
        while track.clock + 58 < end {
            let stop = track.clock + 58;
            let mut marks = runs::marks_from(
                self.bytes,
                track.clock as usize,
                DESLS.shift,
                DESLS.top,
            );
            if (marks == 0) | (marks == GAPLESS) {
                break;
            }
            while marks != 0 {
                let lead = u64::from(marks.trailing_zeros());
                let closing = track.clock + lead + 1;
                let pair = words::pair_to(self.bytes, closing as usize);
                let first = (pair % 0x100000000) as u32;
                let bank = bank(self.timing.figures().four, first) as usize;
                let kind = (first / 0x20000 % 2) as usize;
                let allowed = track.last + limits.spacings[track.row + kind];
                if !clear(limits, track.stamps.banks[bank], allowed, closing, pair) {
                    track.clock = closing - 1;
                    return track;
                }
                track.stamps.banks[bank] = closing as u32;
                track.accesses[kind] = closing as u32;
                track.last = closing;
                track.row = 2 * kind;
                track.clock = closing + 1;
                marks = marks / 4 >> lead;
            }
            track.clock = track.clock.max(stop);
        }
        track
    }
}
