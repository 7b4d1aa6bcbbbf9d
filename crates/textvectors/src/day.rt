// The day as the program knows it, kept apart from all that is tried: what its store holds and what its text says follow from it.
// `vectors` has a day and a store of its own: a slip that only one of them makes is seen; see docs/DECISIONS.md,
// "There are two such programs".
use model::{Event, Tablet};
use std::alloc::{AllocError, Global};
use trials::entries::{Entries, column_of, entry, with_entry};

// The tablet of a column. Like `vectors`' for the eight that there are, but of this program's own.
pub(crate) fn tablet_of(column: usize) -> Tablet {
    Tablet(u8::try_from(column).unwrap_or(u8::MAX).saturating_add(1))
}

#[derive(Drop)]
pub(crate) struct Day {
    pub tablets: u8,
    // In the order in which they were kept.
    pub events: Vec<Event>,
    // How many events each tablet has.
    tallies: Entries,
}

impl Day {
    // A day without events.
    pub(crate) fn new(alloc: Global, tablets: u8) -> Day {
        Day {
            tablets,
            events: Vec::new(alloc),
            tallies: [0; 8],
        }
    }

    pub(crate) fn tally(&self, column: usize) -> u8 {
        entry(&self.tallies, column)
    }

    // An event is the day's next.
    pub(crate) fn keep(&mut self, event: Event) -> Result<(), AllocError> {
        let column = column_of(event.tablet.0);
        let number = self.tally(column).saturating_add(1);
        self.tallies = with_entry(self.tallies, column, number);
        self.events.push(event)?;
        Ok(())
    }

    // What a tablet's event knows; event 0 knows nothing.
    pub(crate) fn known(&self, column: usize, number: u8) -> Entries {
        self.events
            .iter()
            .find(|event| column_of(event.tablet.0) == column
                && entry(&event.clock, column) == number)
            .map_or([0; 8], |event| event.clock)
    }
}
