// Skimming: a check goes on as long as words surely breach nothing.
ghost use Rattle.std.specs.Prelude.{◌≡◌};
ghost use Rattle.words.specs.Words.{words_of};
ghost use Rattle.bytecheck.specs.Passed.{Passed};
ghost use Rattle.bytecheck.specs.Quick.{idle_at};
ghost use Rattle.bytecheck.specs.Pairs.{stamps_of};

use crate::pairs::Track;
use crate::quick::free_from;
use crate::trace::Trace;
use stamps::{DESL, Kept, POWERED_DOWN, Timestamps};

// The timestamps of a track, with the last read and write.
fn current(track: Track) -> Timestamps
    ensures { result ≡ stamps_of track }
{
    Timestamps {
        read: track.accesses[1],
        write: track.accesses[0],
        ..track.stamps
    }
}

impl Trace<'_> {
    // From a clock on where nothing is met: DESL, sleeps, reads and writes. Neither the end nor the clock from which on reads and writes
    // are allowed changes by these. DESL comes first, since a long run of it often stands behind a refresh; where it ends pairs are tried,
    // and where they were tried before and nothing is passed since, the skim ends.
    fn skim(self, from: Timestamps, start: u32) -> Kept
        ensures { Passed self.entry.timing (words_of self.entry.bytes.now) (idle_at start from) result }
    {
        let end = self.in_time(from);
        let mut track = Track {
            clock: u64::from(start),
            last: free_from(self.timing, from),
            row: 4,
            accesses: [from.write, from.read],
            stamps: from,
        };
        let mut tried = false;
        loop {
            let stamps = current(track);
            let after = self.past_idle(stamps, track.clock as u32, end);
            let clock = u64::from(after);
            if tried & (clock == track.clock) {
                return Kept {
                    clock: after,
                    met: DESL,
                    stamps,
                };
            }
            track.clock = clock;
            track = self.past_gaps(track, end);
            track = self.past_pairs(track, end);
            tried = true;
        }
    }

    // Goes on as long as words surely breach nothing.
    pub(crate) fn skimmed(self, from: Kept) -> Kept
        ensures { Passed self.entry.timing (words_of self.entry.bytes.now) from result }
    {
        if from.met == DESL {
            return self.skim(from.stamps, from.clock);
        }
        if from.met == POWERED_DOWN {
            let clock = self.past_low(from.stamps, from.clock);
            return Kept { clock, ..from };
        }
        from
    }
}
