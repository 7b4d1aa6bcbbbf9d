// The trace text: a text is read into the caller's three buffers, and a store is written as text, piece by piece. Writing is
// in the crate `writer` and passed on here.
#![tactic(auto)]

mod events;
mod head;
pub mod reading;
mod standing;

ghost use Rattle.std.specs.Prelude.{◌≡◌};
ghost use Rattle.store.specs.Outcomes.{SameBuffers};
ghost use Rattle.text.specs.Reading.{reading, read_outcome};

use model::{Record, Refusal};
use reading::{ReadRefusal, read_lines};
use store::Buffers;
use store::inner::{fresh_record, no_record};
pub use writer::write;

// Reads a text into a store over the caller's buffers. The buffers are tested first, as those of a store without events;
// they are only lent for that, so that a refusal leaves them.
pub fn read(text: &[u8], buffers: &mut Buffers) -> Result<Record, ReadRefusal>
    ensures read { read_outcome result buffers.new.clocks.now buffers.new.held.now buffers.new.order.now ≡ reading text.now buffers.old.clocks.now buffers.old.held.now buffers.old.order.now }
    ensures same { SameBuffers buffers.old buffers.new }
{
    if store::check(buffers.trace(fresh_record(1))).is_err() {
        return Err(ReadRefusal {
            why: Refusal::ShortBuffer,
            line: 0,
            record: no_record(),
        });
    }
    read_lines(text, buffers)
}
