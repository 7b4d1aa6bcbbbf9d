// What a question asks of one cut, and whether it can be put at all.
#![tactic(auto)]

mod holdings;
mod sets;

ghost use Rattle.std.specs.Prelude.{◌≡◌};
ghost use Rattle.model.specs.Questions.{meets};
ghost use Rattle.store.specs.Outcomes.{Bounded};
ghost use Rattle.questions.specs.Holdings.{ForHeld, question_fits};

pub use holdings::Holdings;
use model::Question;
use sets::{all_hold, set_fits};

// Whether a cut meets a question. Of a store only the held values are read.
// "Bounded" is asked and is no type: the counts change at each step of a walk.
#[tactic(auto, unfolding(model::specs::Questions::meets))]
pub fn cut_meets(holdings: Holdings, question: Question, counts: &[u8; 8]) -> bool
    requires { Bounded counts.now }
    ensures { ForHeld holdings.entry.held.now (λ s. result ≡ meets s question counts.now) }
{
    match question {
        Question::AtLeast(k) => k <= holdings.sum(counts),
        Question::Exactly(k) => holdings.sum(counts) == k,
        Question::All(mask) => all_hold(holdings, mask, counts),
    }
}

// Whether a question can be put to n tablets.
pub fn question_fits(n: usize, question: Question) -> bool
    ensures { result ≡ question_fits n question }
{
    match question {
        Question::AtLeast(_) | Question::Exactly(_) => true,
        Question::All(mask) => set_fits(n, mask),
    }
}
