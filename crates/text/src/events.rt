// Behind the head: the three lines of an event, offered to the store, and the last line.
ghost use Rattle.store.specs.Outcomes.{SameBuffers, store_at, AppendReady};
ghost use Rattle.text.specs.Steps.{EndRead, EventRead, TurnTaken};

use crate::standing::{Next, Step};
use lines::find::line_length;
use loglines::events::read_event;
use loglines::keys::{EVENTS, ends_here, number_line};
use model::{Record, Refusal};
use store::Buffers;
use store::inner::append;

// The last line: T, and nothing behind it. Bytes behind it are a line of their own, the faulty one.
#[tactic(auto, using(crate::proofs::Steps::last_lines))]
fn read_end(ahead: &[u8], record: Record) -> Step
    ensures { EndRead ahead.now «record» result }
{
    let faulty = Step {
        bytes: 0,
        lines: 0,
        record,
        next: Next::Refused(Refusal::FaultyLine),
    };
    let Some(count) = number_line(ahead, &EVENTS, 65535) else {
        return faulty;
    };
    if count != u32::from(record.events) {
        return faulty;
    }
    let bytes = line_length(ahead) + 1;
    let next = if bytes < ahead.len() {
        faulty.next
    } else {
        Next::Read
    };
    Step {
        bytes,
        lines: 1,
        record,
        next,
    }
}

// An event that was taken: the bytes of its three lines, and what goes with the store now.
#[derive(Clone, Copy)]
pub(crate) struct TakenEvent {
    pub used: usize,
    pub record: Record,
    pub tallies: [u8; 8],
}

// An event that was refused at the first, second or third of its lines (0, 1 or 2), with so many bytes before it.
#[derive(Clone, Copy)]
pub(crate) struct RefusedEvent {
    pub why: Refusal,
    pub line: usize,
    pub before: usize,
}

// What is asked is no type: it speaks of buffers that the call writes.
fn take_event(
    ahead: &[u8],
    record: Record,
    tallies: [u8; 8],
    buffers: &mut Buffers,
) -> Result<TakenEvent, RefusedEvent>
    requires { AppendReady (store_at «record» buffers.old) tallies }
    ensures read { EventRead (store_at «record» buffers.old) ahead.now «record» result buffers.new.clocks.now buffers.new.held.now buffers.new.order.now }
    ensures same { SameBuffers buffers.old buffers.new }
{
    let lines = read_event(ahead, usize::from(record.tablets)).map_err(|faulty| RefusedEvent {
        why: Refusal::FaultyLine,
        line: faulty.line,
        before: faulty.before,
    })?;
    let done = append(record, buffers, tallies, lines.event).map_err(|why| RefusedEvent {
        why,
        line: 2,
        before: lines.before,
    })?;
    let tallies = done.tallies;
    Ok(TakenEvent {
        used: lines.used,
        record: done.record,
        tallies,
    })
}

// A turn behind the head: the last line, or the three lines of an event.
// What is asked is no type: it speaks of buffers that the call writes.
pub(crate) fn event_turn(
    ahead: &[u8],
    record: Record,
    tallies: [u8; 8],
    buffers: &mut Buffers,
) -> Step
    requires { AppendReady (store_at «record» buffers.old) tallies }
    ensures taken { TurnTaken (store_at «record» buffers.old) ahead.now result buffers.new.clocks.now buffers.new.held.now buffers.new.order.now }
    ensures same { SameBuffers buffers.old buffers.new }
{
    if ends_here(ahead) {
        return read_end(ahead, record);
    }
    match take_event(ahead, record, tallies, buffers) {
        Ok(taken) => {
            let tallies = taken.tallies;
            Step {
                bytes: taken.used,
                lines: 3,
                record: taken.record,
                next: Next::More(tallies),
            }
        }
        Err(refused) => Step {
            bytes: refused.before,
            lines: refused.line,
            record,
            next: Next::Refused(refused.why),
        },
    }
}
