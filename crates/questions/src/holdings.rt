// What tablets hold at a cut, read from the lent held values.
ghost use Rattle.std.specs.Prelude.{◌≡◌, ◌≤◌, length};
ghost use Rattle.model.specs.Numbers.{column};
ghost use Rattle.model.specs.Questions.{holding, sum_held};
ghost use Rattle.store.specs.Outcomes.{Bounded};
ghost use Rattle.questions.specs.Holdings.{ForHeld};

use model::{EventNumber, Tablet};
use store::inner::slot_of;

// The lent held values of a store, long enough for a value in every slot. What is behind those is not looked at.
#[derive(Clone, Copy)]
pub struct Holdings<'a> {
    pub held: &'a [u16],
    ghost full: { 2032 ≤ length held.now },
}

impl Holdings<'_> {
    // What a tablet holds at a cut.
    // "Bounded" is asked and is no type: the counts change at each step of a walk.
    #[tactic(auto, using(crate::proofs::Laws::holds_nothing, crate::proofs::Laws::holds_stored), unfolding(model::specs::Numbers::slot))]
    pub(crate) fn of(self, tablet: Tablet, counts: &[u8; 8]) -> u16
        requires { (1 ≤ tablet.0) × (tablet.0 ≤ 8) × Bounded counts.now }
        ensures { ForHeld self.entry.held.now (λ s. result ≡ holding s counts.now (column tablet)) }
    {
        let count = counts[tablet.0 as usize - 1];
        if count == 0 {
            return 0;
        }
        self.held[slot_of(tablet, EventNumber(count))]
    }

    // The sum of the holdings. Eight numbers of 16 bits cannot wrap 32.
    #[tactic(auto, unfolding(model::specs::Questions::sum_held))]
    pub(crate) fn sum(self, counts: &[u8; 8]) -> u32
        requires { Bounded counts.now }
        ensures { ForHeld self.entry.held.now (λ s. result ≡ sum_held s counts.now) }
    {
        (0..8)
            .map(|j| u32::from(self.of(Tablet(j + 1), counts)))
            .sum()
    }
}
