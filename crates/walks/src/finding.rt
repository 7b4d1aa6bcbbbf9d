// The first cut of a range that meets a question.
ghost use Rattle.std.specs.Prelude.{◌≡◌, is_some};
ghost use Rattle.steps.specs.Walked.{cuts_of};
ghost use Rattle.questions.specs.Holdings.{ForHeld};
ghost use Rattle.walks.specs.Finding.{AskedOf, cut_found};

use model::{Cut, Question};
use questions::{Holdings, cut_meets};
use steps::walk::Walk;

// The cut, where there is one.
pub fn first_meeting(walk: &Walk, holdings: Holdings, question: Question) -> Option<Cut>
    ensures { ForHeld holdings.entry.held.now (λ s. AskedOf s question (cuts_of walk.now) (is_some result) (cut_found result)) }
{
    let mut counts = walk.low.counts;
    // A loop: it has two exits.
    loop {
        if cut_meets(holdings, question, &counts) {
            return Some(Cut { counts });
        }
        if !walk.next_cut(&mut counts) {
            return None;
        }
    }
}
