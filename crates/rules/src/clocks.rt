// Where an event lies, and comparing clocks where they lie in the lent bytes.
ghost use Rattle.std.specs.Prelude.{◌≡◌, ◌≤◌, length};
ghost use Rattle.model.specs.Numbers.{column, slot_of};
ghost use Rattle.model.specs.Clocks.{clock_at, covered, known};

use model::{EventNumber, Tablet};

// The slot of an event, by its tablet and its number there.
#[tactic(auto, unfolding(model::specs::Numbers::slot))]
pub fn slot_of(tablet: Tablet, number: EventNumber) -> usize
    requires { (1 ≤ tablet.0) × (tablet.0 ≤ 8) × (1 ≤ number.0) × (number.0 ≤ 254) }
    ensures { result ≡ slot_of tablet number }
{
    (tablet.0 as usize - 1) * 254 + (number.0 as usize - 1)
}

// The lent clocks of a store, long enough for the clock of every slot. What is behind those is not looked at.
#[derive(Clone, Copy)]
pub struct Clocks<'a> {
    pub bytes: &'a [u8],
    ghost full: { 16256 ≤ length bytes.now },
}

impl<'a> Clocks<'a> {
    // The clock of a tablet's event, where it lies.
    #[tactic(auto, using(model::proofs::Slots::part_clock), unfolding(model::specs::Numbers::slot))]
    pub fn stored(self, tablet: Tablet, number: EventNumber) -> &'a [u8]
        requires { (1 ≤ tablet.0) × (tablet.0 ≤ 8) × (1 ≤ number.0) × (number.0 ≤ 254) }
        ensures clock { result.now ≡ clock_at self.entry.bytes.now (column tablet) number.0 }
        ensures long { length result.now ≡ 8 }
    {
        let from = 8 * slot_of(tablet, number);
        &self.bytes[from..from + 8]
    }
}

// Whether one clock is at most another in each entry.
pub fn is_covered(known: &[u8], clock: &[u8]) -> bool
    requires { (length known.now ≡ 8) × (8 ≤ length clock.now) }
    ensures { result ≡ covered known.now clock.now }
{
    known.iter().zip(clock).all(|(told, entry)| told <= entry)
}

// Whether the clock of a tablet's event is at most another in each entry. The number 0 is "none yet", which knows nothing:
// rule 16's `known` of specs/ reads it so. The other clock is lent as it lies, and may be longer: an array of eight would
// ask more of callers.
pub fn known_covered(clocks: Clocks, tablet: Tablet, number: EventNumber, clock: &[u8]) -> bool
    requires { (1 ≤ tablet.0) × (tablet.0 ≤ 8) × (number.0 ≤ 254) × (8 ≤ length clock.now) }
    ensures { result ≡ covered (known (clock_at clocks.entry.bytes.now) (column tablet) number.0) clock.now }
{
    if number.0 == 0 {
        return true;
    }
    is_covered(clocks.stored(tablet, number), clock)
}
