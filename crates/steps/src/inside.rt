// Whether a cut is one of a range's.
ghost use Rattle.std.specs.Prelude.{◌≡◌, ◌&&◌};
ghost use Rattle.model.specs.Clocks.{clock_at, covered};
ghost use Rattle.model.specs.Cuts.{closed, consistent};
ghost use Rattle.store.specs.Outcomes.{Bounded};
ghost use Rattle.steps.specs.Walked.{walk_clocks};

use crate::walk::Walk;
use model::{Cut, EventNumber, Tablet};
use store::inner::{Clocks, is_covered, known_covered};

// Whether what the last events of a cut know is in the cut.
// "Bounded" is asked and is no type: the counts change at each step of a walk.
fn is_closed(clocks: Clocks, counts: &[u8; 8]) -> bool
    requires { Bounded counts.now }
    ensures { result ≡ closed (clock_at clocks.entry.bytes.now) counts.now }
{
    (0..8u8).all(|i| {
        let last = EventNumber(counts[i as usize]);
        known_covered(clocks, Tablet(i + 1), last, counts)
    })
}

impl Walk<'_> {
    // At least the range's lower bound, at most its upper, and closed.
    #[tactic(auto, unfolding(model::specs::Cuts::consistent))]
    pub fn in_span(&self, cut: Cut) -> bool
        ensures { result ≡ (covered self.now.low.counts cut.counts && consistent (walk_clocks self.now) self.now.high.counts cut.counts) }
    {
        let counts = cut.counts;
        is_covered(&self.low.counts, &counts)
            && is_covered(&counts, &self.high.counts)
            && is_closed(self.clocks, &counts)
    }
}
