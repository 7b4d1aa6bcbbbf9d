// The ranges of a stored trace: an event's interval, and the whole trace.
ghost use Rattle.std.specs.Prelude.{◌≡◌, ◌+◌};
ghost use Rattle.model.specs.Follow.{tallies};
ghost use Rattle.steps.specs.Spans.{Countable, IntervalSpan, TraceSpan};

use model::{Cut, EventNumber, Position, Tablet};
use store::inner::Clocks;

// The least and the greatest cut of a range.
#[derive(Clone, Copy)]
pub struct Span {
    pub low: Cut,
    pub high: Cut,
}

// The tallies after one position more: that of the event's tablet is raised. They are changed in place.
// "Countable" binds the bytes to a position, another in each call, so it is no type.
#[tactic(auto, using(model::proofs::Valid::at_tallies, model::proofs::Valid::tally_own, store::proofs::Laws::tallies_raised))]
pub fn tally_next(order: &[u8], position: Position, counts: &mut [u8; 8])
    requires { Countable order.now (position.0 + 1) × (counts.old ≡ tallies order.now position.0) }
    ensures { counts.new ≡ tallies order.now (position.0 + 1) }
{
    let byte = order[position.0 as usize];
    let own = (byte - 1) as usize;
    counts[own] += 1;
}

// The tallies after a position, counted along the order list; before the first event (position 0) all are 0.
#[tactic(auto, unfolding(model::specs::Lists::eight, model::specs::Follow::tallies))]
pub fn tallies_after(order: &[u8], position: Position) -> [u8; 8]
    requires { Countable order.now position.0 }
    ensures { result ≡ tallies order.now position.0 }
{
    let mut counts = [0; 8];
    for p in 0..position.0 {
        tally_next(order, Position(p), &mut counts);
    }
    counts
}

// The interval of a position: from Gmin, the clock of the event there, to Gbnd, the tallies after it, which the caller has at
// hand. Interval 0 is the empty cut alone.
pub fn interval_span(clocks: Clocks, order: &[u8], position: Position, counts: [u8; 8]) -> Span
    requires { Countable order.now position.0 × (counts ≡ tallies order.now position.0) }
    ensures { IntervalSpan clocks.entry.bytes.now order.now position.0 result.low.counts result.high.counts }
{
    let high = Cut { counts };
    if position.0 == 0 {
        return Span {
            low: Cut { counts: [0; 8] },
            high,
        };
    }
    let byte = order[position.0 as usize - 1];
    let number = counts[byte as usize - 1];
    let mut low = [0; 8];
    low.copy_from_slice(clocks.stored(Tablet(byte), EventNumber(number)));
    Span {
        low: Cut { counts: low },
        high,
    }
}

// The whole trace: from the empty cut to the tallies.
// The number is a position, not the list's length.
#[tactic(auto, unfolding(model::specs::Lists::zeros))]
pub fn trace_span(order: &[u8], events: u16) -> Span
    requires { Countable order.now events }
    ensures { TraceSpan order.now events result.low.counts result.high.counts }
{
    Span {
        low: Cut { counts: [0; 8] },
        high: Cut {
            counts: tallies_after(order, Position(events)),
        },
    }
}
