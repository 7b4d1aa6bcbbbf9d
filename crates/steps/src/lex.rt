// The lexical engine (documents 000 and 002): from a cut of a range to the next. In a step nothing is tested or copied that
// is only compared; it takes at most n squared byte comparisons.
ghost use Rattle.std.specs.Prelude.{◌≡◌, ◌≤◌, max};
ghost use Rattle.model.specs.Lists.{at, max_below};
ghost use Rattle.model.specs.Numbers.{column};
ghost use Rattle.model.specs.Clocks.{clock_at, known};
ghost use Rattle.model.specs.Step.{can_raise, raised};
ghost use Rattle.steps.specs.Walk.{Raisable, Known, stepped, next_after};
ghost use Rattle.steps.specs.Walked.{Standing, step_of, walk_clocks};

use crate::walk::Walk;
use model::{EventNumber, Tablet};
use store::inner::Clocks;

// What an event of one tablet knows of another. The number 0 is "none yet", which knows nothing: rule 16's
// `known` of specs/ reads it so.
#[tactic(auto, using(model::proofs::Entries::at_zeros, model::proofs::Ranges::known_event))]
fn known_entry(clocks: Clocks, tablet: Tablet, number: EventNumber, other: Tablet) -> u8
    requires { (1 ≤ tablet.0) × (tablet.0 ≤ 8) × (number.0 ≤ 254) × (1 ≤ other.0) × (other.0 ≤ 8) }
    ensures { result ≡ at (known (clock_at clocks.entry.bytes.now) (column tablet) number.0) (column other) }
{
    if number.0 == 0 {
        return 0;
    }
    clocks.stored(tablet, number)[other.0 as usize - 1]
}

// The largest of a floor and of what the events of all tablets up to a last one, the newly raised one, know of another tablet.
fn least_entry(clocks: Clocks, counts: &[u8; 8], last: Tablet, other: Tablet, floor: u8) -> u8
    requires { (1 ≤ last.0) × (1 ≤ other.0) × Known counts.now (column last) (column other) }
    ensures { result ≡ max floor (max_below last.0 (λ i. at (known (clock_at clocks.entry.bytes.now) i (at counts.now i)) (column other))) }
{
    let mut most = floor;
    // A for over the index: the count and the tablet are both read at it.
    for i in 0..last.0 {
        let count = EventNumber(counts[i as usize]);
        most = most.max(known_entry(clocks, Tablet(i + 1), count, other));
    }
    most
}

impl Walk<'_> {
    #[tactic(auto, using(crate::proofs::Entries::raise_no_room, crate::proofs::Entries::raise_unready, crate::proofs::Entries::raise_ready))]
    fn can_raise(&self, counts: &[u8; 8], tablet: Tablet) -> bool
        requires { (1 ≤ tablet.0) × (tablet.0 ≤ 8) }
        ensures { result ≡ can_raise (walk_clocks self.now) self.now.high.counts counts.now (column tablet) }
    {
        let own = tablet.0 as usize - 1;
        let count = counts[own];
        if self.high.counts[own] <= count {
            return false;
        }
        let knows = self.clocks.stored(tablet, EventNumber(count + 1));
        // A for: `all` over the index and over a zip were tried: cuts are then counted a quarter to a third more slowly,
        // below the ratios of docs/PERFORMANCE.md.
        for j in 0..own {
            if counts[j] < knows[j] {
                return false;
            }
        }
        true
    }

    fn raise(&self, counts: &mut [u8; 8], tablet: Tablet)
        requires { (1 ≤ tablet.0) × Raisable self.now.tablets self.now.clocks.bytes.now self.now.low.counts self.now.high.counts counts.old (column tablet) }
        ensures { counts.new ≡ raised (walk_clocks self.now) self.now.low.counts counts.old (column tablet) }
    {
        counts[tablet.0 as usize - 1] += 1;
        // A for over the index: the count, the tablet and the floor are all read at it.
        for i in tablet.0..self.tablets {
            let j = i as usize;
            counts[j] = least_entry(
                self.clocks,
                counts,
                tablet,
                Tablet(i + 1),
                self.low.counts[j],
            );
        }
    }

    // Moves the counts of a cut on to the next cut of the range; where there is none, they stay and it says so. They are changed
    // in place: a step copies no cut.
    pub fn next_cut(&self, counts: &mut [u8; 8]) -> bool
        requires { Standing self.now counts.old }
        ensures { stepped result counts.new ≡ next_after counts.old (step_of self.now counts.old) }
    {
        for i in (0..self.tablets).rev() {
            let tablet = Tablet(i + 1);
            if self.can_raise(counts, tablet) {
                self.raise(counts, tablet);
                return true;
            }
        }
        false
    }
}
