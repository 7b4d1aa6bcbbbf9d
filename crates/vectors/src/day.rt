// The trace as the program knows it, "the day", kept apart from all that is tried.
use crate::parts::front;
use model::{Event, Record};
use std::alloc::{AllocError, Global};
use std::fmt;
use trials::entries::{Entries, column_of, entry, with_entry};

// The other program has its own: see docs/DECISIONS.md, "There are two such programs".
#[derive(Drop)]
pub(crate) struct Day {
    pub tablets: u8,
    // The event at position p has index p - 1.
    pub events: Vec<Event>,
    // How many events each tablet has.
    pub tallies: Entries,
}

impl Day {
    // A day without events.
    pub(crate) fn new(alloc: Global, tablets: u8) -> Day {
        Day {
            tablets,
            events: Vec::new(alloc),
            tallies: [0; 8],
        }
    }

    // The last position: how many events there are.
    pub(crate) fn last(&self) -> u16 {
        u16::try_from(self.events.len()).unwrap_or(u16::MAX)
    }

    // The record of a store that has this day.
    pub(crate) fn record(&self) -> Record {
        Record {
            tablets: self.tablets,
            events: self.last(),
        }
    }

    pub(crate) fn tally(&self, column: usize) -> u8 {
        entry(&self.tallies, column)
    }

    // Writes down an event that may follow.
    pub(crate) fn add(&mut self, event: Event) -> Result<(), AllocError> {
        let column = column_of(event.tablet.0);
        let number = self.tally(column).saturating_add(1);
        self.events.push(event)?;
        self.tallies = with_entry(self.tallies, column, number);
        Ok(())
    }

    // The event at a position. Position 0 has none.
    pub(crate) fn at(&self, position: u16) -> Option<Event> {
        let index = usize::from(position).checked_sub(1)?;
        self.events.get(index).copied()
    }

    // A tablet's event by its number. Number 0 has none.
    pub(crate) fn event(&self, column: usize, number: u8) -> Option<Event> {
        self.events
            .iter()
            .find(|event| column_of(event.tablet.0) == column
                && entry(&event.clock, column) == number)
            .copied()
    }

    // The clock of a tablet's event; event 0 knows nothing.
    pub(crate) fn clock(&self, column: usize, number: u8) -> Entries {
        self.event(column, number)
            .map_or([0; 8], |event| event.clock)
    }

    // The tallies after a position.
    pub(crate) fn tallies_after(&self, position: u16) -> Entries {
        let mut tallies = [0; 8];
        for event in self.events.iter().take(usize::from(position)) {
            let column = column_of(event.tablet.0);
            let number = entry(&tallies, column).saturating_add(1);
            tallies = with_entry(tallies, column, number);
        }
        tallies
    }

    // How many vectors there are up to the tallies.
    pub(crate) fn vectors(&self) -> u64 {
        self.tallies.iter().fold(
            1,
            |product: u64, tally| product.saturating_mul(u64::from(*tally).saturating_add(1)),
        )
    }
}

// The entries of a clock, with commas between them.
#[derive(Clone, Copy)]
struct Joined<'a>(&'a [u8]);

impl fmt::Display for Joined<'_> {
    fn fmt<W: fmt::Write>(&self, f: &mut fmt::Formatter<W>) -> fmt::Result {
        for (column, entry) in self.0.iter().enumerate() {
            if column != 0 {
                write!(f, ",")?;
            }
            write!(f, "{entry}")?;
        }
        Ok(())
    }
}

// The number of tablets, then tablet/clock/held of each event in turn, a line for each.
impl fmt::Display for Day {
    fn fmt<W: fmt::Write>(&self, f: &mut fmt::Formatter<W>) -> fmt::Result {
        writeln!(f, "trace of tablets={}", self.tablets)?;
        for event in self.events.iter() {
            let clock = Joined(front(&event.clock, usize::from(self.tablets)));
            writeln!(f, "{}/{clock}/{}", event.tablet.0, event.held)?;
        }
        Ok(())
    }
}
