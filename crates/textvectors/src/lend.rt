// The library's two calls on texts: what is compared elsewhere then holds no answer of the library's own form. Each is lent the
// front of a store's buffers.
use crate::stores::{Buffer, Store};
use model::{PieceNumber, Refusal};
use store::{Buffers, Trace};

// Document 01's number of a refusal, 0 for none: no Option, as it is compared with a number that a case of stdin gives.
pub(crate) fn number_of(refusal: Option<Refusal>) -> usize {
    refusal.map_or(0, |why| usize::from(u8::from(why)))
}

// A piece of a store's text, to the front of `out`: how many bytes, or why there are none.
pub(crate) fn write(store: &Store, piece: u16, out: &mut [u8]) -> Result<usize, Refusal> {
    let clocks = store.clocks.as_flattened();
    let held = store.held.as_slice();
    let order = store.order.as_slice();
    let trace = Trace {
        record: store.record,
        clocks: &clocks[..clocks.len() - store.lent.missing(Buffer::Clocks)],
        held: &held[..held.len() - store.lent.missing(Buffer::Held)],
        order: &order[..order.len() - store.lent.missing(Buffer::Order)],
    };
    text::write(trace, PieceNumber(piece), out)
}

// What reading says, in numbers as a case of the input gives them: that of the refusal, 0 for none, its line, 0 then too, and the
// record. A case may give any number, so that it is no `Refusal`.
#[derive(Clone, Copy)]
pub(crate) struct Told {
    pub number: usize,
    pub line: usize,
    pub tablets: usize,
    pub events: usize,
}

impl Told {
    // A text that is read to its end.
    pub(crate) fn whole(tablets: u8, events: usize) -> Told {
        Told {
            number: 0,
            line: 0,
            tablets: usize::from(tablets),
            events,
        }
    }

    // One that is refused at a line, with so many events before it.
    pub(crate) fn refused(why: Refusal, line: usize, tablets: u8, events: usize) -> Told {
        Told {
            number: number_of(Some(why)),
            line,
            tablets: usize::from(tablets),
            events,
        }
    }
}

// Reads a text into a store.
pub(crate) fn read(text: &[u8], store: &mut Store) -> Told {
    let lent = store.lent;
    let clocks = store.clocks.as_flattened_mut();
    let held = store.held.as_mut_slice();
    let order = store.order.as_mut_slice();
    let clock_bytes = clocks.len() - lent.missing(Buffer::Clocks);
    let held_numbers = held.len() - lent.missing(Buffer::Held);
    let order_bytes = order.len() - lent.missing(Buffer::Order);
    let mut buffers = Buffers {
        clocks: &mut clocks[..clock_bytes],
        held: &mut held[..held_numbers],
        order: &mut order[..order_bytes],
    };
    match text::read(text, &mut buffers) {
        Ok(record) => Told::whole(record.tablets, usize::from(record.events)),
        Err(refused) => Told::refused(
            refused.why,
            refused.line,
            refused.record.tablets,
            usize::from(refused.record.events),
        ),
    }
}
