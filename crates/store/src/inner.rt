// For the layers above: the two records without events, writing eight bytes, and an append that does not test the store
// again. Its caller keeps what it asks as an invariant, so that reading a text of 1,700 events does not test the store 1,700
// times.
ghost use Rattle.std.specs.Prelude.{◌≡◌, ◌+◌, ◌≤◌, length};
ghost use Rattle.std.proofs.lemmas.List.Edits.{sets};
ghost use Rattle.model.specs.Store.{fresh_record, no_record};
ghost use Rattle.store.specs.Outcomes.{SameBuffers, store_at, AppendReady, appended, tallies_left, AppendedTo};

use crate::Buffers;
use crate::writing::write_event;
use model::{Event, Record, Refusal};
pub use rules::clocks::{Clocks, is_covered, known_covered, slot_of};
use rules::follow::Past;

// A record before its first event. No conversion: built by rule 10.
pub fn fresh_record(tablets: u8) -> Record
    ensures { result ≡ fresh_record tablets }
{
    Record { tablets, events: 0 }
}

// rule 51: the record (0, 0), which reading gives where it refuses before a `tablets` line is accepted.
pub fn no_record() -> Record
    ensures { result ≡ no_record }
{
    Record {
        tablets: 0,
        events: 0,
    }
}

// Eight bytes written into lent bytes: a clock into its slot, a cut into an output.
pub fn write_eight(bytes: &mut [u8], from: usize, eight: [u8; 8])
    requires { from + 8 ≤ length bytes.old }
    ensures { bytes.new ≡ sets bytes.old from eight }
{
    bytes[from..from + 8].copy_from_slice(&eight);
}

// A store that has taken an event: the record that goes on, and the tallies that go with it.
#[derive(Clone, Copy)]
pub struct Appended {
    pub record: Record,
    pub tallies: [u8; 8],
}

// An event offered to a store that its caller knows to be sound, with the store's tallies at hand: nothing is tested or
// counted again. The caller keeps what this asks as its own invariant. A refused event leaves record, buffers and tallies as
// they were.
// What is asked is no type: it speaks of buffers that the call writes.
pub fn append(
    record: Record,
    buffers: &mut Buffers,
    tallies: [u8; 8],
    event: Event,
) -> Result<Appended, Refusal>
    requires { AppendReady (store_at «record» buffers.old) tallies }
    ensures appended { AppendedTo (store_at «record» buffers.old) event (appended «record» result buffers.new.clocks.now buffers.new.held.now buffers.new.order.now) (tallies_left tallies result) }
    ensures same { SameBuffers buffers.old buffers.new }
{
    let clocks = Clocks {
        bytes: buffers.trace(record).clocks,
    };
    let past = Past {
        tablets: record.tablets,
        clocks,
        tallies: &tallies,
    };
    past.offered_verdict(event.tablet, &event.clock)?;
    Ok(write_event(record, buffers, tallies, event))
}
