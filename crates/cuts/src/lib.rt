// Consistent cuts of a stored trace: listing, counting, asking, gathering.
// Each public call tests the store before all else and refuses by the numbers of rule 52; what it answers is fixed by its
// contract for all inputs.
#![tactic(auto)]

mod gatherer;
pub mod inner;
mod lister;
mod ranges;
mod sound;

ghost use Rattle.std.specs.Prelude.{◌≡◌};
ghost use Rattle.store.specs.Outcomes.{store_in};
ghost use Rattle.cuts.specs.Listing.{listed, listing, moved};
ghost use Rattle.cuts.specs.Gathering.{gathered, gathering};
ghost use Rattle.cuts.specs.Outcomes.{counted, counting, asked, asking};
ghost use Rattle.cuts.specs.Ranges.{Tested};

use gatherer::gather_intervals;
use inner::{answer_job, count_interval};
use lister::list_interval;
use model::{Cut, Job, Place, Position, Refusal};
use sound::Sound;
use store::Trace;
pub use walks::showing::Listed;

// The test of a stored trace, and what of it the calls on cuts read once it has passed.
fn tested(trace: Trace) -> Result<Sound, Refusal>
    ensures { Tested trace.entry result }
{
    store::check(trace)?;
    // Three fields, and each place shows the fact by its own.
    Ok(Sound {
        record: trace.record,
        clocks: trace.clocks,
        order: trace.order,
    })
}

// The number of cuts of an interval.
pub fn count(trace: Trace, position: Position) -> Result<u64, Refusal>
    ensures { counted result ≡ counting (store_in trace.entry) position.0 }
{
    count_interval(tested(trace)?, position)
}

// The first cut of a job's range that meets its question, where there is one.
pub fn ask(trace: Trace, job: Job) -> Result<Option<Cut>, Refusal>
    ensures { asked result ≡ asking (store_in trace.entry) job }
{
    store::check(trace)?;
    answer_job(trace, job)
}

// Writes the cuts of an interval that stand behind a place, as many as fit.
pub fn list(
    trace: Trace,
    position: Position,
    place: Place,
    out: &mut [u8],
) -> Result<Listed, Refusal>
    ensures { listed place result out.new ≡ listing (store_in trace.entry) position.0 place out.old }
{
    list_interval(tested(trace)?, position, place, out)
}

// What a listing answers where its place was lent.
// A flag for "more": what is written is there in both cases.
#[derive(Clone, Copy)]
pub struct Moved {
    pub written: usize,
    pub more: bool,
}

// The same through a lent place, which the call moves on. A caller that keeps its place in a local uses the call above, by value.
pub fn list_moving(
    trace: Trace,
    position: Position,
    place: &mut Place,
    out: &mut [u8],
) -> Result<Moved, Refusal>
    ensures { moved result place.new out.new ≡ listing (store_in trace.entry) position.0 place.old out.old }
{
    let listed = list(trace, position, *place, out)?;
    *place = listed.place;
    Ok(Moved {
        written: listed.written,
        more: listed.more,
    })
}

// What a gathering answers: how many cuts are there, whether more are left, and where it stopped: the interval of the last cut
// written and the place behind that cut, from which `list` goes on.
// A flag for "more": what is written and the place are there in both cases.
#[derive(Clone, Copy)]
pub struct Gathered {
    pub written: usize,
    pub more: bool,
    pub position: Position,
    pub place: Place,
}

// The cuts of interval after interval, from a first position to a last, all that fit. Each interval is listed into the part of
// the output behind the cuts already written.
pub fn gather(
    trace: Trace,
    first: Position,
    last: Position,
    out: &mut [u8],
) -> Result<Gathered, Refusal>
    ensures { gathered result out.new ≡ gathering (store_in trace.entry) first.0 last.0 out.old }
{
    gather_intervals(tested(trace)?, first, last, out)
}
