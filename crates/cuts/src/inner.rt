// For the layers above: counting and asking of a store that its caller knows to be sound, so that a report does not test the
// store once an interval.
ghost use Rattle.std.specs.Prelude.{◌≡◌, List, ℕ};
ghost use Rattle.model.specs.Store.{store_refusal};
ghost use Rattle.store.specs.Outcomes.{store_in};
ghost use Rattle.cuts.specs.Outcomes.{TalliedAt, counted, count_in, asked, ask_in};
ghost use Rattle.cuts.specs.Ranges.{with_held};

pub use crate::sound::Sound;
use model::{Cut, Job, Position, Refusal};
use questions::{Holdings, question_fits};
use store::Trace;
use walks::counting::count_span;
use walks::finding::first_meeting;

#[tactic(auto, using(crate::proofs::Answers::count_walked))]
pub fn count_interval(trace: Sound, position: Position) -> Result<u64, Refusal>
    ensures { (held : List ℕ) → counted result ≡ count_in (with_held trace.entry held) position.0 }
{
    let walk = trace.interval(position).ok_or(Refusal::NoSuchPosition)?;
    count_span(&walk).ok_or(Refusal::CountTooLarge)
}

// The same where the tallies after the position are at hand, as in counting interval after interval.
#[tactic(auto, using(crate::proofs::Answers::count_walked))]
pub fn count_interval_with(
    trace: Sound,
    position: Position,
    tallies: [u8; 8],
) -> Result<u64, Refusal>
    requires { TalliedAt trace.record trace.order.now position.0 tallies }
    ensures { (held : List ℕ) → counted result ≡ count_in (with_held trace.entry held) position.0 }
{
    let walk = trace.interval_to(position, tallies);
    count_span(&walk).ok_or(Refusal::CountTooLarge)
}

// The first cut of a job's range that meets its question.
// Asked and no type: Sound has no held values, and this reads them.
pub fn answer_job(trace: Trace, job: Job) -> Result<Option<Cut>, Refusal>
    requires { store_refusal (store_in trace) ≡ 0 }
    ensures { asked result ≡ ask_in (store_in trace.entry) job }
{
    // Three fields, and each place shows the fact by its own.
    let sound = Sound {
        record: trace.record,
        clocks: trace.clocks,
        order: trace.order,
    };
    let walk = sound.range(job.range).ok_or(Refusal::NoSuchPosition)?;
    if !question_fits(trace.record.tablets as usize, job.question) {
        return Err(Refusal::BadSet);
    }
    let holdings = Holdings { held: trace.held };
    Ok(first_meeting(&walk, holdings, job.question))
}
