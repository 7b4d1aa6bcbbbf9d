// The rules of following, in the order of rule 53: 4 and 8 by the tablet, 5, 6 and 7 by the clock.
ghost use Rattle.std.specs.Prelude.{◌≡◌, ◌+◌, ◌≤◌, ◌<◌, length, IfOk};
ghost use Rattle.model.specs.Lists.{at};
ghost use Rattle.model.specs.Numbers.{column};
ghost use Rattle.model.specs.Refusals.{verdict_number};
ghost use Rattle.model.specs.Clocks.{clock_at};
ghost use Rattle.model.specs.Follow.{tablet_refusal, entry_fits, others_within, last_known, covers, clock_refusal, follow_refusal};
ghost use Rattle.rules.specs.Reading.{Bounded, MayTake, Readable};

use crate::clocks::{Clocks, known_covered};
use model::{EventNumber, Refusal, Tablet};

// What an event is tested against: how many tablets there are, and the clocks and tallies of the events before it. The tallies are
// lent: a caller that goes from event to event has just raised one byte of them, and reading all eight right behind that waits.
#[derive(Clone, Copy)]
pub struct Past<'a> {
    pub tablets: u8,
    pub clocks: Clocks<'a>,
    pub tallies: &'a [u8; 8],
    ghost narrow: { tablets ≤ 8 },
    ghost bounded: { Bounded tallies.now },
}

fn entry_fits(n: u8, own: Tablet, other: Tablet, tally: u8, entry: u8) -> bool
    requires { (1 ≤ own.0) × (1 ≤ other.0) }
    ensures { result ≡ entry_fits n (column own) (column other) tally entry }
{
    if other.0 == own.0 {
        return true;
    }
    if other.0 <= n {
        return entry <= tally;
    }
    entry == 0
}

// The last event of a tablet that an event's clock must cover; 0 where there is none. No Option: rule 16 has the count as it
// stands in a tally or an entry, and 0 is one of those.
fn last_known(own: Tablet, other: Tablet, tally: u8, entry: u8) -> EventNumber
    requires { (1 ≤ own.0) × (1 ≤ other.0) }
    ensures { result.0 ≡ last_known (column own) (column other) tally entry }
{
    if other.0 != own.0 {
        return EventNumber(entry);
    }
    EventNumber(tally)
}

impl Past<'_> {
    #[tactic(auto, unfolding(model::specs::Follow::tablet_refusal))]
    fn tablet_verdict(self, tablet: Tablet) -> Result<(), Refusal>
        ensures number { verdict_number result ≡ tablet_refusal self.entry.tablets self.entry.tallies.now tablet.0 }
        ensures passed { IfOk result (λ _. MayTake self.entry.tablets self.entry.tallies.now tablet) }
    {
        if tablet.0 == 0 {
            return Err(Refusal::NoSuchTablet);
        }
        if self.tablets < tablet.0 {
            return Err(Refusal::NoSuchTablet);
        }
        let own = (tablet.0 - 1) as usize;
        if 254 <= self.tallies[own] {
            return Err(Refusal::TabletFull);
        }
        Ok(())
    }

    // Like covers_known in form alone: another test of each column.
    fn others_within(self, own: Tablet, clock: &[u8]) -> bool
        requires { (1 ≤ own.0) × (8 ≤ length clock.now) }
        ensures { result ≡ others_within self.entry.tablets self.entry.tallies.now (column own) clock.now }
    {
        (0..8u8).all(|i| {
            let j = i as usize;
            entry_fits(self.tablets, own, Tablet(i + 1), self.tallies[j], clock[j])
        })
    }

    // At most n of the eight need a comparison: above n nothing is known.
    // Like others_within in form alone: another test of each column.
    fn covers_known(self, own: Tablet, clock: &[u8]) -> bool
        requires { (1 ≤ own.0) × Readable self.tallies.now (column own) clock.now }
        ensures { result ≡ covers (clock_at self.entry.clocks.bytes.now) self.entry.tallies.now (column own) clock.now }
    {
        (0..8u8).all(|i| {
            let j = i as usize;
            let last = last_known(own, Tablet(i + 1), self.tallies[j], clock[j]);
            known_covered(self.clocks, Tablet(i + 1), last, clock)
        })
    }

    #[tactic(auto, unfolding(model::specs::Follow::clock_refusal))]
    fn clock_verdict(self, tablet: Tablet, clock: &[u8]) -> Result<(), Refusal>
        requires { (8 ≤ length clock.now) × (1 ≤ tablet.0) × (tablet.0 ≤ 8) × (at self.tallies.now (column tablet) < 254) }
        ensures { verdict_number result ≡ clock_refusal self.entry.tablets (clock_at self.entry.clocks.bytes.now) self.entry.tallies.now (column tablet) clock.now }
    {
        let own = (tablet.0 - 1) as usize;
        if clock[own] != self.tallies[own] + 1 {
            return Err(Refusal::OwnEntryNotNext);
        }
        if !self.others_within(tablet, clock) {
            return Err(Refusal::EntryTooHigh);
        }
        if !self.covers_known(tablet, clock) {
            return Err(Refusal::NotCovered);
        }
        Ok(())
    }

    // An event that is offered with its clock.
    pub fn offered_verdict(self, tablet: Tablet, clock: &[u8]) -> Result<(), Refusal>
        requires { 8 ≤ length clock.now }
        ensures number { verdict_number result ≡ follow_refusal self.entry.tablets (clock_at self.entry.clocks.bytes.now) self.entry.tallies.now tablet.0 clock.now }
        ensures passed { IfOk result (λ _. MayTake self.entry.tablets self.entry.tallies.now tablet) }
    {
        self.tablet_verdict(tablet)?;
        self.clock_verdict(tablet, clock)
    }

    // An event that is stored: its clock is compared where it lies.
    pub fn stored_verdict(self, tablet: Tablet) -> Result<(), Refusal>
        ensures number { verdict_number result ≡ follow_refusal self.entry.tablets (clock_at self.entry.clocks.bytes.now) self.entry.tallies.now tablet.0 (clock_at self.entry.clocks.bytes.now (column tablet) (at self.entry.tallies.now (column tablet) + 1)) }
        ensures passed { IfOk result (λ _. MayTake self.entry.tablets self.entry.tallies.now tablet) }
    {
        self.tablet_verdict(tablet)?;
        let next = self.tallies[(tablet.0 - 1) as usize] + 1;
        let clock = self.clocks.stored(tablet, EventNumber(next));
        self.clock_verdict(tablet, clock)
    }
}
