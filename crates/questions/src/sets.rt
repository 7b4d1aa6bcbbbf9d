// Named sets of tablets: a mask of eight bits, tablet 1 the lowest, since rule 34 gives the set to the call so.
ghost use Rattle.std.specs.Prelude.{◌≡◌, ◌<◌, true, cond};
ghost use Rattle.model.specs.Questions.{names, set_fits};
ghost use Rattle.store.specs.Outcomes.{Bounded};
ghost use Rattle.questions.specs.Holdings.{ForHeld, each_named};

use crate::holdings::Holdings;
use model::Tablet;

// Whether a mask names the tablet in column j.
#[tactic(auto, using(crate::proofs::Laws::bit_named))]
fn names(mask: u8, j: u8) -> bool
    requires { j < 8 }
    ensures { result ≡ names mask j }
{
    mask >> j & 1 == 1
}

// A fact that is asked only of a tablet that the mask names.
fn holds_if_named(mask: u8, j: u8, fact: bool) -> bool
    requires { j < 8 }
    ensures { result ≡ cond (names mask j) fact true }
{
    !names(mask, j) || fact
}

// Whether each tablet that the mask names holds at least 1.
// "Bounded" is asked and is no type: the counts change at each step of a walk.
pub(crate) fn all_hold(holdings: Holdings, mask: u8, counts: &[u8; 8]) -> bool
    requires { Bounded counts.now }
    ensures { ForHeld holdings.entry.held.now (λ s. result ≡ each_named s mask counts.now) }
{
    (0..8).all(|j| holds_if_named(mask, j, 1 <= holdings.of(Tablet(j + 1), counts)))
}

// Whether a named set is not empty and names only tablets up to n.
pub(crate) fn set_fits(n: usize, mask: u8) -> bool
    ensures { result ≡ set_fits n mask }
{
    1 <= mask && (0..8).all(|j| holds_if_named(mask, j, usize::from(j) < n))
}
