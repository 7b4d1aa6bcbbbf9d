// What `cutcheck` prints: from the bytes of its input to the bytes of its output, over lent buffers.
#![tactic(auto)]

mod answers;
mod inputs;
mod refusals;
mod totals;

ghost use Rattle.std.specs.Prelude.{◌≡◌};
ghost use Rattle.store.specs.Outcomes.{SameBuffers};
ghost use Rattle.report.specs.Report.{printed, outcome, reporting};

use answers::answer;
use model::Refusal;
use refusals::write_refusal;
pub use store::Buffers;

// One byte more than rule 47 allows, enough to know that an input is too long.
pub const INPUT_SIZE: usize = 65537;
// Enough for the answer of the longest input.
pub const OUTPUT_SIZE: usize = 71680;
// The store's buffers: a slot for each event that fits, and eight bytes of clock for each slot.
pub const SLOTS: usize = 2032;

pub const CLOCKS_SIZE: usize = 8 * SLOTS;

// A refusal and its line. No Option: line 0 where there is none to name, as `reporting` of specs/ gives it.
#[derive(Clone, Copy, PartialEq, Eq)]
pub struct Refused {
    pub why: Refusal,
    pub line: usize,
}

// What a report answers: "answered" or a refusal with its line, and how many bytes at the front of the output are to be
// printed.
#[derive(Clone, Copy, PartialEq, Eq)]
pub struct Reported {
    pub answer: Result<(), Refused>,
    pub length: usize,
}

// Puts what is to be printed for an input to the front of an output. The trace is read into the three buffers: reading tests
// each event as it takes it and so leaves a sound store, which nothing tests again.
#[tactic(auto, using(crate::proofs::Asking::report_short))]
pub fn make_report(input: &[u8], buffers: &mut Buffers, out: &mut [u8]) -> Reported
    ensures report { outcome (printed result out.new) buffers.new.clocks.now buffers.new.held.now buffers.new.order.now ≡ reporting input.now buffers.old.clocks.now buffers.old.held.now buffers.old.order.now out.old }
    ensures same { SameBuffers buffers.old buffers.new }
{
    if out.len() < OUTPUT_SIZE {
        return Reported {
            answer: Err(Refusal::ShortOutput.into()),
            length: 0,
        };
    }
    match answer(input, buffers, out) {
        Ok(length) => Reported {
            answer: Ok(()),
            length,
        },
        Err(refused) => Reported {
            answer: Err(refused),
            length: write_refusal(refused, out),
        },
    }
}
