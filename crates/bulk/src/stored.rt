// The six counts of a tally, put into a buffer.
ghost use Rattle.std.specs.Prelude.{◌≡◌};
ghost use Rattle.bulk.specs.Stored.{stored};

use counts::CommandCounts;

pub(crate) fn store(counts: CommandCounts, places: &mut [u32])
    ensures { places.new ≡ stored counts places.old }
{
    if let Some(first) = places.first_chunk_mut::<6>() {
        *first = [
            counts.reads,
            counts.writes,
            counts.modes,
            counts.refreshes,
            counts.desls,
            counts.clocks.0,
        ];
    }
}
