// A walk over the cuts of a range: the clocks that a step reads, and the range's bounds.
ghost use Rattle.steps.specs.Walk as walk;

use model::Cut;
use store::inner::Clocks;

// All that a step needs, together. The bounds are of some range of a sound store: whoever builds a walk shows it, and nothing
// that takes one asks it again.
#[derive(Clone, Copy)]
pub struct Walk<'a> {
    pub tablets: u8,
    pub clocks: Clocks<'a>,
    pub low: Cut,
    pub high: Cut,
    ghost span: { walk.Span tablets clocks.bytes.now low.counts high.counts },
}
