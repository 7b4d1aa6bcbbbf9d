// Counting the cuts of a range by walking it.
ghost use Rattle.std.specs.Prelude.{◌≡◌, is_some};
ghost use Rattle.std.specs.Option.{unwrap_or};
ghost use Rattle.steps.specs.Walked.{cuts_of};
ghost use Rattle.walks.specs.Counting.{CountedTo};

use steps::walk::Walk;

// The number of cuts, where it fits 64 bits.
pub fn count_span(walk: &Walk) -> Option<u64>
    ensures { CountedTo (cuts_of walk.now) (is_some result) (unwrap_or result 0) }
{
    let mut counts = walk.low.counts;
    let mut count: u64 = 1;
    // A while: next_cut both tells and moves.
    while walk.next_cut(&mut counts) {
        count = count.checked_add(1)?;
    }
    Some(count)
}
