// The answer to an input, or the refusal that is to be printed in its place. Nothing is written before every line is known.
ghost use Rattle.std.specs.Prelude.{◌≡◌, ◌≤◌, length, is_some, IfSome};
ghost use Rattle.model.specs.Store.{store_refusal};
ghost use Rattle.store.specs.Outcomes.{SameBuffers, store_in};
ghost use Rattle.lines.specs.Find.{rest_lines};
ghost use Rattle.walks.specs.Finding.{cut_found};
ghost use Rattle.answerlines.specs.Outputs.{room, witness_entries};
ghost use Rattle.report.specs.Report.{told, told_whole, outcome, answering, looking, following};

use crate::inputs::look_at;
use crate::totals::count_all;
use crate::{Refused, SLOTS};
use answerlines::write_answer;
use cuts::inner::{Sound, answer_job};
use lines::find::line_length;
use model::{Cut, Job, Question, Range, Refusal};
use store::{Buffers, Trace};
use text::reading::ReadRefusal;

// A refusal that names no line.
impl From<Refusal> for Refused {
    ghost use Rattle.std.specs.Prelude.{◌≡◌};

    ghost from_gives = { λ why refused. refused ≡ record { why = why; line = 0 } };

    fn from(why: Refusal) -> Refused {
        Refused { why, line: 0 }
    }
}

impl From<ReadRefusal> for Refused {
    ghost use Rattle.std.specs.Prelude.{◌≡◌};

    ghost from_gives = { λ read refused. refused ≡ record { why = read.why; line = read.line } };

    fn from(read: ReadRefusal) -> Refused {
        Refused {
            why: read.why,
            line: read.line,
        }
    }
}

// A witness's entries, lent. A function for its contract, which speaks of both cases.
fn entries_of(witness: &Option<Cut>) -> Option<&[u8]>
    ensures some { is_some result ≡ is_some witness.now }
    ensures entries { witness_entries result ≡ cut_found witness.now }
    ensures eight { IfSome result (λ cut. 8 ≤ length cut.now) }
{
    witness.as_ref().map(|cut| &cut.counts[..])
}

// Asks the question, counts all intervals, and only then writes. The counts stay in a local array until their sum is known to
// fit. A sound store is asked for and is no type: `Sound` has no held values, and this reads them.
fn answer_store(question: Question, trace: Trace, out: &mut [u8]) -> Result<usize, Refusal>
    requires { (store_refusal (store_in trace) ≡ 0) × (room ≤ length out.old) }
    ensures { told_whole result out.new ≡ answering (store_in trace.entry) question out.old }
{
    let job = Job {
        question,
        range: Range::Whole,
    };
    let witness = answer_job(trace, job)?;
    let sound = Sound {
        record: trace.record,
        clocks: trace.clocks,
        order: trace.order,
    };
    let mut counts = [0u64; SLOTS + 1];
    let sum = count_all(sound, &mut counts).ok_or(Refusal::CountTooLarge)?;
    Ok(write_answer(trace.record, &counts, sum, entries_of(&witness), out))
}

// The question, then the trace, then the answer.
#[tactic(auto, using(crate::proofs::Asking::look_inside))]
pub(crate) fn answer(input: &[u8], buffers: &mut Buffers, out: &mut [u8]) -> Result<usize, Refused>
    requires { room ≤ length out.old }
    ensures told { outcome (told result out.new) buffers.new.clocks.now buffers.new.held.now buffers.new.order.now ≡ following (looking input.now) (rest_lines input.now) buffers.old.clocks.now buffers.old.held.now buffers.old.order.now out.old }
    ensures same { SameBuffers buffers.old buffers.new }
{
    let question = look_at(input)?;
    let trace = line_length(input) + 1;
    let read = text::read(&input[trace..], buffers);
    let record = read?;
    Ok(answer_store(question, buffers.trace(record), out)?)
}
