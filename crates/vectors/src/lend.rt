// The store that is lent to the library. It is laid out from the program's own day, in the order and the slots of document 01,
// over cells filled with a mark; what accepting leaves in it is compared with the day cell by cell, so the stores that it makes
// and those laid out here are the same. Then one thing may be made wrong with it.
use crate::calls::Word;
use crate::day::Day;
use crate::notes::Kind;
use crate::parts::{front, front_mut};
use crate::run::Run;
use crate::second::follow;
use model::{Event, Record, Tablet};
use std::alloc::{AllocError, Global};
use store::{Buffers, Trace};
use trials::entries::{Entries, column_of, entry, with_entry};

// How many cells of each buffer are lent.
#[derive(Clone, Copy, PartialEq, Eq)]
pub(crate) struct Sizes {
    pub clocks: usize,
    pub held: usize,
    pub order: usize,
}

// The buffers have four slots more than document 01 asks, and all are lent but where a smaller size is tried.
const SLOTS: usize = 2036;

const ALL: Sizes = Sizes {
    clocks: 8 * SLOTS,
    held: SLOTS,
    order: SLOTS,
};

// Just document 01's size.
pub(crate) const JUST: Sizes = Sizes {
    clocks: 16256,
    held: 2032,
    order: 2032,
};

const MARK: u8 = 170;

const MARK_HELD: u16 = 43690;

// The slot of an event (rule 8).
fn slot_of(event: Event) -> usize {
    let column = column_of(event.tablet.0);
    slot_at(column, entry(&event.clock, column).wrapping_sub(1))
}

// The slot of a tablet behind so many of its events.
fn slot_at(column: usize, events: u8) -> usize {
    254 * (column % 8) + usize::from(events)
}

#[derive(Clone, Copy, PartialEq, Eq)]
struct Cells {
    // A slot's clock each, lent as bytes.
    clocks: [Entries; SLOTS],
    held: [u16; SLOTS],
    order: [u8; SLOTS],
}

impl Cells {
    // The events' slots and order bytes, and the mark everywhere else. They are laid out where they are given back: put together
    // from three arrays they would stand on the stack twice.
    fn new(day: &Day) -> Cells {
        let mut cells = Cells {
            clocks: [[MARK; 8]; SLOTS],
            held: [MARK_HELD; SLOTS],
            order: [MARK; SLOTS],
        };
        for (place, event) in cells.order.iter_mut().zip(day.events.iter()) {
            *place = event.tablet.0;
        }
        for event in day.events.iter() {
            let slot = slot_of(*event);
            if let Some(place) = cells.clocks.get_mut(slot) {
                *place = event.clock;
            }
            if let Some(place) = cells.held.get_mut(slot) {
                *place = event.held;
            }
        }
        cells
    }
}

#[derive(Drop)]
pub(crate) struct Lent {
    pub record: Record,
    pub sizes: Sizes,
    cells: Cells,
    // A byte is not as the day has it. A flag: no value goes with it.
    changed: bool,
}

impl Lent {
    // The sound store, as the day has it.
    pub(crate) fn new(day: &Day) -> Lent {
        Lent {
            record: day.record(),
            sizes: ALL,
            cells: Cells::new(day),
            changed: false,
        }
    }

    pub(crate) fn trace(&self) -> Trace<'_> {
        Trace {
            record: self.record,
            clocks: front(self.cells.clocks.as_flattened(), self.sizes.clocks),
            held: front(&self.cells.held, self.sizes.held),
            order: front(&self.cells.order, self.sizes.order),
        }
    }

    // Offers an event. A record that goes on takes the place of the one given.
    fn accept(&mut self, event: Event) -> Word {
        let record = self.record;
        let sizes = self.sizes;
        let mut buffers = Buffers {
            clocks: front_mut(self.cells.clocks.as_flattened_mut(), sizes.clocks),
            held: front_mut(&mut self.cells.held, sizes.held),
            order: front_mut(&mut self.cells.order, sizes.order),
        };
        let accepted = store::accept(record, &mut buffers, event);
        self.record = accepted.unwrap_or(record);
        Word::of_test(accepted)
    }

    // An entry in the clock of an event is another.
    pub(crate) fn change_entry(&mut self, event: Event, column: usize, value: u8) {
        if let Some(clock) = self.cells.clocks.get_mut(slot_of(event)) {
            *clock = with_entry(*clock, column, value);
        }
        self.changed = true;
    }

    // The order byte of a position is another.
    pub(crate) fn change_order(&mut self, index: usize, value: u8) {
        if let Some(place) = self.cells.order.get_mut(index) {
            *place = value;
        }
        self.changed = true;
    }
}

// Whether the buffers are compared behind an offer: always where a smaller size is lent, and now and then else. Where a byte was
// changed they are not what the day has.
fn looked_up(run: &mut Run, store: &Lent) -> bool {
    !store.changed && (store.sizes != ALL || run.draw.once_in(4))
}

// Offers an event to a store. Where it may follow, the day has it too. What the store holds afterwards is what the day has.
pub(crate) fn accept_in_store(
    run: &mut Run,
    store: &mut Lent,
    event: Event,
) -> Result<Word, AllocError> {
    let word = store.accept(event);
    if follow(&run.day, event).is_ok() {
        run.day.add(event)?;
    }
    if looked_up(run, store) {
        let same = store.cells == Cells::new(&run.day);
        run.same(Kind::Cells, true, same)?;
    }
    Ok(word)
}

// Whether a store, with its changed byte, still holds a trace: the events that it holds, taken in turn from none by the program's
// own rule.
pub(crate) fn holds_trace(alloc: Global, store: &Lent) -> Result<bool, AllocError> {
    let cells = &store.cells;
    let mut day = Day::new(alloc, store.record.tablets);
    for number in front(&cells.order, usize::from(store.record.events)) {
        let tablet = Tablet(*number);
        let column = column_of(tablet.0);
        let slot = slot_at(column, day.tally(column));
        let event = Event {
            tablet,
            clock: cells.clocks.get(slot).copied().unwrap_or([0; 8]),
            held: 0,
        };
        if follow(&day, event).is_err() {
            return Ok(false);
        }
        day.add(event)?;
    }
    Ok(true)
}
