// The library's writer beside the program's own, piece by piece; and stores, pieces and outputs that it refuses. A call is given
// several faults at once, so that the first that applies is seen to be given.
use crate::lend::write;
use crate::notes::{Kind, Notes};
use crate::run::Run;
use crate::stores::{Buffer, Lent, Store, slot_of};
use crate::trace::Trace;
use model::{Record, Refusal};
use trials::entries::{column_of, with_entry};

const OUTPUT_SIZE: usize = 256;

// What an output is filled with before a call, so that the bytes that stay are seen.
const STAYS: u8 = 238;

// A piece that no day has.
const NO_PIECE: u16 = 10000;

// What a call said, and the program's whole buffer, of which it was lent the front.
#[derive(Clone, Copy)]
struct Written {
    answer: Result<usize, Refusal>,
    out: [u8; OUTPUT_SIZE],
}

// A piece by the library, into an output of so many bytes.
fn write_piece(store: &Store, piece: u16, length: usize) -> Written {
    let mut out = [STAYS; OUTPUT_SIZE];
    let answer = write(store, piece, &mut out[..length.min(OUTPUT_SIZE)]);
    Written { answer, out }
}

// What stands behind the bytes written, up to the end of the program's own buffer, is as it was.
fn compare_rest(notes: &mut Notes, written: &Written, length: usize, text: &[u8]) {
    let touched = written
        .out
        .iter()
        .skip(length)
        .filter(|byte| **byte != STAYS)
        .count();
    notes.same(Kind::Rests, 0, touched, text);
}

// A call that is to be refused: nothing is written.
fn compare_refused(notes: &mut Notes, kind: Kind, why: Refusal, written: &Written, text: &[u8]) {
    notes.same_refusal(kind, Some(why), written.answer.err(), text);
    notes.same(kind, 0, written.answer.unwrap_or(0), text);
    compare_rest(notes, written, 0, text);
}

// One piece by the library, into an output one byte too short and into one of five bytes more, against the program's.
fn compare_piece(notes: &mut Notes, store: &Store, piece: u16, want: &[u8], text: &[u8]) {
    let length = want.len();
    let short = write_piece(store, piece, length.saturating_sub(1));
    compare_refused(notes, Kind::Pieces, Refusal::ShortOutput, &short, text);
    let written = write_piece(store, piece, length.saturating_add(5));
    notes.same_refusal(Kind::Pieces, None, written.answer.err(), text);
    notes.same(Kind::Pieces, length, written.answer.unwrap_or(0), text);
    for (want, got) in want.iter().zip(&written.out) {
        notes.same(Kind::Pieces, usize::from(*want), usize::from(*got), text);
    }
    compare_rest(notes, &written, length, text);
}

// Every piece, by both writers.
pub(crate) fn compare_pieces(notes: &mut Notes, trace: &Trace) {
    let store = Store::of(trace.day.tablets, &trace.day.events);
    for (number, piece) in (0..).zip(&trace.pieces) {
        compare_piece(notes, &store, number, piece.as_bytes(), trace.bytes());
    }
}

// A piece that no day has, into an output that takes none: refused for the store where the store is refused.
fn refuse_any(notes: &mut Notes, store: &Store, why: Refusal, text: &[u8]) {
    let written = write_piece(store, NO_PIECE, 7);
    compare_refused(notes, Kind::Refusals, why, &written, text);
}

// Records with a number of tablets or events that cannot be. With one event more than there are, the mark in the order byte
// names no tablet.
fn refuse_records(notes: &mut Notes, store: &Store, text: &[u8]) {
    let Record { tablets, events } = store.record;
    let wrong = [
        (0, events, Refusal::NoSuchTabletCount),
        (9, events, Refusal::NoSuchTabletCount),
        (tablets, 2033, Refusal::InvalidStore),
        (tablets, events.saturating_add(1), Refusal::InvalidStore),
    ];
    for (tablets, events, why) in wrong {
        let record = Record { tablets, events };
        refuse_any(notes, &Store { record, ..*store }, why, text);
    }
}

// Each buffer one short of document 01's size; at just that size it is the piece that is refused.
fn refuse_short(notes: &mut Notes, store: &Store, text: &[u8]) {
    for short in [Buffer::Clocks, Buffer::Held, Buffer::Order] {
        let lent = Lent::Short(short);
        refuse_any(notes, &Store { lent, ..*store }, Refusal::ShortBuffer, text);
    }
    let lent = Lent::Exact;
    refuse_any(
        notes,
        &Store { lent, ..*store },
        Refusal::NoSuchPosition,
        text,
    );
}

// One byte is changed so that the store is no trace's: an event's own entry is another number than its own.
fn refuse_own(notes: &mut Notes, store: &Store, column: usize, number: u8, text: &[u8]) {
    for wrong in [number.saturating_add(1), number.saturating_sub(1)] {
        let mut changed = *store;
        if let Some(clock) = changed.clocks.get_mut(slot_of(column, number)) {
            *clock = with_entry(*clock, column, wrong);
        }
        refuse_any(notes, &changed, Refusal::InvalidStore, text);
    }
}

// The same: an order byte names no tablet.
fn refuse_order(notes: &mut Notes, store: &Store, position: usize, text: &[u8]) {
    for wrong in [0, store.record.tablets.saturating_add(1)] {
        let mut changed = *store;
        if let Some(tablet) = changed.order.get_mut(position) {
            *tablet = wrong;
        }
        refuse_any(notes, &changed, Refusal::InvalidStore, text);
    }
}

// Bytes of some event changed, where there is an event.
fn refuse_bytes(run: &mut Run, trace: &Trace, store: &Store) {
    let text = trace.bytes();
    let events = &trace.day.events;
    if events.is_empty() {
        return;
    }
    let position = run.draw.below(events.len());
    let column = events
        .get(position)
        .map_or(0, |event| column_of(event.tablet.0));
    let number = run.draw.below(usize::from(trace.day.tally(column))) as u8 + 1;
    refuse_own(&mut run.notes, store, column, number, text);
    refuse_order(&mut run.notes, store, position, text);
}

// All that the writer refuses of a day.
pub(crate) fn refuse_writing(run: &mut Run, trace: &Trace) {
    let text = trace.bytes();
    let store = Store::of(trace.day.tablets, &trace.day.events);
    refuse_records(&mut run.notes, &store, text);
    refuse_short(&mut run.notes, &store, text);
    let above = store.record.events.saturating_add(2);
    let written = write_piece(&store, above, 7);
    let why = Refusal::NoSuchPosition;
    compare_refused(&mut run.notes, Kind::Refusals, why, &written, text);
    refuse_bytes(run, trace, &store);
}
