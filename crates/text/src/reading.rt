// Reading: one reader stands over the caller's text and is moved on, turn by turn, from the head over the events to the last
// line. The store is tested once, by the caller; what an append asks is kept from turn to turn.
ghost use Rattle.std.specs.Prelude.{◌≡◌, true};
ghost use Rattle.model.specs.Store.{full_sizes};
ghost use Rattle.store.specs.Outcomes.{SameBuffers};
ghost use Rattle.text.specs.Reading.{reading, read_outcome};

use crate::events::event_turn;
use crate::head::head_turn;
use crate::standing::Next;
use loglines::reader::Reader;
use model::{Record, Refusal};
use store::Buffers;

// Why a text is not read, at which line, and the record that goes with what was stored before it.
#[derive(Clone, Copy)]
pub struct ReadRefusal {
    pub why: Refusal,
    // 0 where there is none to name, as `reading` of specs/ gives it.
    pub line: usize,
    pub record: Record,
}

// The reader is made over the text, moved on as each step says, and its own line is the refusal's. What a turn does is all in
// `head_turn` and `event_turn`, which see the text ahead of the reader.
pub(crate) fn read_lines(text: &[u8], buffers: &mut Buffers) -> Result<Record, ReadRefusal>
    requires { full_sizes buffers.old.clocks.now buffers.old.held.now buffers.old.order.now ≡ true }
    ensures read { read_outcome result buffers.new.clocks.now buffers.new.held.now buffers.new.order.now ≡ reading text.now buffers.old.clocks.now buffers.old.held.now buffers.old.order.now }
    ensures same { SameBuffers buffers.old buffers.new }
{
    let mut reader = Reader::new(text);
    let mut step = head_turn(text);
    // A loop: the turn before says whether another follows.
    loop {
        let at = reader.at + step.bytes;
        let line = reader.line + step.lines;
        reader = reader.moved(at, line);
        match step.next {
            Next::More(tallies) => {
                let ahead = &reader.src[reader.at..];
                step = event_turn(ahead, step.record, tallies, buffers);
            }
            Next::Read => return Ok(step.record),
            Next::Refused(why) => {
                return Err(ReadRefusal {
                    why,
                    line: reader.line,
                    record: step.record,
                });
            }
        }
    }
}
