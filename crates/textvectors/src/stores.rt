// A store as the program lays it out, in buffers with room to spare: what is lent to the library, and what it is to have stored.
ghost use Rattle.std.specs.Prelude.{◌≤◌};

use model::{Event, Record};
use trials::entries::{Entries, column_of, entry, with_entry};

// Document 01 has 254 slots for each of eight tablets, a clock, a held number and an order byte to each.
const SLOTS_EACH: usize = 254;

// The buffers here have two clocks, or 16 numbers or bytes, more than its 2032.
const CLOCKS: usize = 2034;

const SLOTS: usize = 2048;

const SPARE: usize = 16;

// What stands where no event does.
const MARK: u8 = 170;

const MARK_WORD: u16 = 43690;

#[derive(Clone, Copy, PartialEq, Eq)]
pub(crate) enum Buffer {
    Clocks,
    Held,
    Order,
}

// How much of each buffer is lent: all with room to spare, all at just document 01's size, or one of them one short of it.
#[derive(Clone, Copy)]
pub(crate) enum Lent {
    Roomy,
    Exact,
    Short(Buffer),
}

impl Lent {
    // How many bytes or numbers at the end of a buffer are not lent: a choice, no conversion.
    pub(crate) fn missing(self, buffer: Buffer) -> usize
        ensures { result ≤ 17 }
    {
        match self {
            Lent::Roomy => 0,
            Lent::Short(short) if short == buffer => SPARE + 1,
            _ => SPARE,
        }
    }
}

#[derive(Clone, Copy)]
pub(crate) struct Store {
    pub record: Record,
    pub lent: Lent,
    pub clocks: [Entries; CLOCKS],
    pub held: [u16; SLOTS],
    pub order: [u8; SLOTS],
}

impl Store {
    // Buffers of marks, and a record of nothing.
    pub(crate) fn empty(lent: Lent) -> Store {
        Store {
            record: Record {
                tablets: 0,
                events: 0,
            },
            lent,
            clocks: [[MARK; 8]; CLOCKS],
            held: [MARK_WORD; SLOTS],
            order: [MARK; SLOTS],
        }
    }

    // The store of so many tablets with these events, and the mark everywhere else.
    pub(crate) fn of(tablets: u8, events: &[Event]) -> Store {
        let mut store = Store::empty(Lent::Roomy);
        let mut tallies = [0; 8];
        for (position, event) in events.iter().enumerate() {
            let column = column_of(event.tablet.0);
            let number = entry(&tallies, column).saturating_add(1);
            tallies = with_entry(tallies, column, number);
            store.lay(position, slot_of(column, number), event);
        }
        store.record = Record {
            tablets,
            events: u16::try_from(events.len()).unwrap_or(u16::MAX),
        };
        store
    }

    fn lay(&mut self, position: usize, slot: usize, event: &Event) {
        if let Some(clock) = self.clocks.get_mut(slot) {
            *clock = event.clock;
        }
        if let Some(held) = self.held.get_mut(slot) {
            *held = event.held;
        }
        if let Some(tablet) = self.order.get_mut(position) {
            *tablet = event.tablet.0;
        }
    }
}

// The slot of a tablet's event: 254 to a tablet, one event behind the other.
pub(crate) fn slot_of(column: usize, number: u8) -> usize {
    column
        .saturating_mul(SLOTS_EACH)
        .saturating_add(usize::from(number).saturating_sub(1))
}
