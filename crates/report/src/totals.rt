// The counts of all intervals of a sound store, and their sum.
ghost use Rattle.std.specs.Prelude.{List, ℕ, ◌≤◌, length, is_some, unwrap_or};
ghost use Rattle.cuts.specs.Ranges.{with_held};
ghost use Rattle.report.specs.Report.{CountedAll};

use cuts::inner::{Sound, count_interval_with};
use model::Position;
use steps::spans::tally_next;

// The sum, where it fits 64 bits. The store is not tested here: its type says that it is sound. The tallies go along from
// interval to interval, so that no interval's Gbnd is counted anew.
pub(crate) fn count_all(trace: Sound, counts: &mut [u64]) -> Option<u64>
    requires { 2033 ≤ length counts.old }
    ensures { (held : List ℕ) → CountedAll (with_held trace.entry held) (is_some result) (unwrap_or result 0) counts.new }
{
    let mut tallies = [0u8; 8];
    let mut sum: u64 = 0;
    // A for over the index: it is the position that is counted, and the place of its count.
    for p in 0..=trace.record.events {
        let count = count_interval_with(trace, Position(p), tallies).ok()?;
        sum = sum.checked_add(count)?;
        counts[p as usize] = count;
        if p < trace.record.events {
            tally_next(trace.order, Position(p), &mut tallies);
        }
    }
    Some(sum)
}
