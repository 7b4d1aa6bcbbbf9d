// One piece of the text of a store: the `tablets` line, the three lines of an event, or the `events` line. It is put together
// first, so that an output that is too short for it is left as it was.
ghost use Rattle.std.specs.Prelude.{◌≡◌, ◌-◌, ◌≤◌, length};
ghost use Rattle.model.specs.Numbers.{column};
ghost use Rattle.model.specs.Follow.{tally, event_at};
ghost use Rattle.model.specs.Store.{store_refusal};
ghost use Rattle.store.specs.Outcomes.{store_in};
ghost use Rattle.pieces.specs.Pieces.{empty_piece, grown};
ghost use Rattle.writer.specs.Writing.{three_lines, event_text, piece_text, Placed, Writable};

use loglines::keys::{CLOCK, EVENTS, HELD, TABLET, TABLETS};
use model::{EventNumber, PieceNumber, Position, Tablet};
use pieces::{Piece, empty_piece};
use rules::clocks::{Clocks, slot_of};
use store::Trace;

// How many of the first `count` order bytes name a tablet.
// The number is a position, not the list's length.
fn count_before(order: &[u8], count: usize, tablet: Tablet) -> usize
    requires { (count ≤ length order.now) × (1 ≤ tablet.0) }
    ensures { result ≡ tally order.now count (column tablet) }
{
    let before = &order[..count];
    before.iter().filter(|byte| **byte == tablet.0).count()
}

// The number on its tablet of the event at a position.
fn number_at(order: &[u8], position: Position) -> EventNumber
    requires { (1 ≤ position.0) × Placed order.now (position.0 - 1) }
    ensures { result.0 ≡ (event_at order.now (position.0 - 1)).number }
{
    let q = (position.0 - 1) as usize;
    let before = count_before(order, q, Tablet(order[q]));
    EventNumber(before as u8 + 1)
}

// The three lines of an event, of its clock the entries that are written.
// Not by fmt::Write: see Piece.
#[tactic(auto, using(pieces::proofs::Growing::grown_grown))]
fn three_lines(tablet: Tablet, entries: &[u8], held: u16) -> Piece
    requires { (1 ≤ length entries.now) × (length entries.now ≤ 8) }
    ensures { result ≡ grown empty_piece (three_lines tablet.0 entries.now held) }
{
    let mut lines = empty_piece();
    lines.put_line(&TABLET, tablet.0 as u64);
    lines.put_list(&CLOCK, entries);
    lines.put_line(&HELD, held as u64);
    lines
}

// The lines of the event at a position, from where its clock and held value lie.
#[tactic(auto, unfolding(model::specs::Numbers::slot))]
fn event_piece(trace: Trace, position: Position) -> Piece
    requires { (1 ≤ position.0) × Writable (store_in trace) (position.0 - 1) }
    ensures { result ≡ grown empty_piece (event_text (store_in trace.entry) (position.0 - 1)) }
{
    let tablet = Tablet(trace.order[(position.0 - 1) as usize]);
    let number = number_at(trace.order, position);
    let clocks = Clocks {
        bytes: trace.clocks,
    };
    let clock = clocks.stored(tablet, number);
    let held = trace.held[slot_of(tablet, number)];
    let n = trace.record.tablets as usize;
    three_lines(tablet, &clock[..n], held)
}

// Asked and no type: Sound has no held values, and this reads them.
#[tactic(auto, using(crate::proofs::Pieces::piece_first, crate::proofs::Pieces::piece_event, crate::proofs::Pieces::piece_last, crate::proofs::Pieces::tablets_line, crate::proofs::Pieces::events_line))]
pub(crate) fn piece_of(trace: Trace, piece: PieceNumber) -> Piece
    requires { store_refusal (store_in trace) ≡ 0 }
    ensures { result ≡ grown empty_piece (piece_text (store_in trace.entry) piece.0) }
{
    let mut line = empty_piece();
    if piece.0 == 0 {
        line.put_line(&TABLETS, trace.record.tablets as u64);
        return line;
    }
    if piece.0 <= trace.record.events {
        return event_piece(trace, Position(piece.0));
    }
    line.put_line(&EVENTS, trace.record.events as u64);
    line
}
