// What accepting an event writes.
ghost use Rattle.std.specs.Prelude.{Ok};
ghost use Rattle.store.specs.Outcomes.{SameBuffers, store_at, WriteReady, appended, Stored};
ghost use Rattle.store.specs.Room.{Room};

use crate::Buffers;
use crate::inner::{Appended, write_eight};
use model::{Event, EventNumber, Record};
use rules::clocks::slot_of;

pub(crate) fn write_event(
    record: Record,
    buffers: &mut Buffers,
    tallies: [u8; 8],
    event: Event,
) -> Appended
    requires ready { WriteReady (store_at «record» buffers.old) tallies event }
    requires room { Room (store_at «record» buffers.old) tallies event }
    ensures written { Stored (store_at «record» buffers.old) event (appended «record» (Ok result) buffers.new.clocks.now buffers.new.held.now buffers.new.order.now) result.tallies }
    ensures same { SameBuffers buffers.old buffers.new }
{
    let tablet = event.tablet;
    let byte = tablet.0;
    let own = (byte - 1) as usize;
    let count = tallies[own];
    let number = count + 1;
    let at = slot_of(tablet, EventNumber(number));
    write_eight(buffers.clocks, 8 * at, event.clock);
    buffers.held[at] = event.held;
    buffers.order[record.events as usize] = byte;
    let mut tallies = tallies;
    tallies[own] = number;
    let record = Record {
        events: record.events + 1,
        ..record
    };
    Appended { record, tallies }
}
