// The store of a trace over the caller's three buffers: opening, accepting events, checking.
// Each public call tests all that it is given and refuses by the numbers of rule 52; what it answers and leaves in every
// buffer is fixed by its contract for all inputs.
#![tactic(auto)]

pub mod inner;
mod testing;
mod writing;

ghost use Rattle.std.specs.Prelude.{◌≡◌};
ghost use Rattle.model.specs.Refusals.{verdict_number};
ghost use Rattle.model.specs.Store.{store_refusal};
ghost use Rattle.store.specs.Outcomes.{SameBuffers, store_at, store_in, opening, opened, accepting, taken};

use inner::{append, fresh_record};
use model::{Event, Record, Refusal};
use testing::{record_verdict, test_store};

// A stored trace where it lies: the record and the three lent buffers. Nothing is known of it yet.
#[derive(Clone, Copy)]
pub struct Trace<'a> {
    pub record: Record,
    pub clocks: &'a [u8],
    pub held: &'a [u16],
    pub order: &'a [u8],
}

// The three lent buffers of a store that is to take events.
#[derive(Drop)]
pub struct Buffers<'a> {
    pub clocks: &'a mut [u8],
    pub held: &'a mut [u16],
    pub order: &'a mut [u8],
}

impl Buffers<'_> {
    // The store that they are with a record, to be read.
    pub fn trace(&self, record: Record) -> Trace<'_>
        ensures { store_in result ≡ store_at «record» self.now }
    {
        Trace {
            record,
            clocks: self.clocks,
            held: self.held,
            order: self.order,
        }
    }
}

// A fresh record for a number of tablets. No buffer is touched.
pub fn open(tablets: u8) -> Result<Record, Refusal>
    ensures { opened result ≡ opening tablets }
{
    let record = fresh_record(tablets);
    record_verdict(record)?;
    Ok(record)
}

// Whether a stored trace is sound: passed, or refused 1, 2 or 3.
pub fn check(trace: Trace) -> Result<(), Refusal>
    ensures { verdict_number result ≡ store_refusal (store_in trace.entry) }
{
    test_store(trace)?;
    Ok(())
}

// Takes the next event and gives the record that goes on, or refuses it and leaves all as it was.
pub fn accept(record: Record, buffers: &mut Buffers, event: Event) -> Result<Record, Refusal>
    ensures taken { taken «record» result buffers.new.clocks.now buffers.new.held.now buffers.new.order.now ≡ accepting (store_at «record» buffers.old) event }
    ensures same { SameBuffers buffers.old buffers.new }
{
    let tallies = test_store(buffers.trace(record))?;
    let done = append(record, buffers, tallies, event)?;
    Ok(done.record)
}
