// A stored trace that is known to be sound.
ghost use Rattle.cuts.specs.Outcomes.{SoundTrace};

use model::Record;

// What the calls on cuts read of a stored trace once its test has passed. The held values are not among it: no cut depends on
// them. Whoever makes one shows that the trace is sound, and nothing that takes one tests it again.
#[derive(Clone, Copy)]
pub struct Sound<'a> {
    pub record: Record,
    pub clocks: &'a [u8],
    pub order: &'a [u8],
    ghost sound: { ∥ SoundTrace «record» clocks.now order.now ∥₁ },
}
