// Stores, positions, sets and outputs that are refused: by which number, and that nothing else is said or changed. A call is
// given several faults at once, so that the first that applies is seen to be given.
use crate::calls::{Call, NO_PLACE, Word};
use crate::compare::{ask_both, compare_rest};
use crate::lend::{JUST, Lent, Sizes, accept_in_store, holds_trace};
use crate::notes::Kind;
use crate::run::Run;
use model::{Cut, Event, Job, Place, Position, Question, Range, Record, Refusal, Tablet};
use std::alloc::AllocError;
use trials::entries::entry;

// A place that no interval has.
const OUTSIDE: Place = Place {
    begun: true,
    cut: Cut { counts: [255; 8] },
};

// An output that takes no cut.
const TOO_SHORT: usize = 7;

// A position that no trace has.
const BEYOND: Position = Position(9999);

fn ask_set(range: Range, set: u8) -> Call {
    Call::Ask(Job {
        question: Question::All(set),
        range,
    })
}

// A call that says this and nothing else: it counts and writes nothing. A listing gives the place back that it was given, any
// other call zeros.
fn refuse(
    run: &mut Run,
    store: &Lent,
    asked: Call,
    length: usize,
    want: Word,
) -> Result<(), AllocError> {
    let answer = ask_both(run, store, asked, length)?;
    let got = answer.said;
    let place = match asked {
        Call::List(_, place) => place,
        _ => NO_PLACE,
    };
    run.said(Kind::Refusals, want, got.word)?;
    run.same(Kind::Refusals, 0, got.number)?;
    run.same_place(Kind::Refusals, place, got.place)?;
    run.same(Kind::Refusals, 0, got.position.0)?;
    compare_rest(run, &answer.output, 0)
}

// Listing, gathering, counting and asking of an interval, with a place that no interval has, an output that takes no cut and a
// set without a tablet.
fn refuse_at(
    run: &mut Run,
    store: &Lent,
    position: Position,
    why: Refusal,
) -> Result<(), AllocError> {
    let calls = [
        Call::List(position, OUTSIDE),
        Call::Gather(position, position),
        Call::Count(position),
        ask_set(Range::Interval(position), 0),
    ];
    for asked in calls {
        refuse(run, store, asked, TOO_SHORT, Word::Refused(why))?;
    }
    Ok(())
}

// Accepting an event of tablet 0: refused, with the record as given.
fn refuse_event(run: &mut Run, store: &mut Lent, why: Refusal) -> Result<(), AllocError> {
    let event = Event {
        tablet: Tablet(0),
        clock: [0; 8],
        held: 0,
    };
    let given = store.record;
    let got = accept_in_store(run, store, event)?;
    run.refused(Kind::Refusals, why, got)?;
    run.same_record(Kind::Refusals, given, store.record)
}

// The store's own test.
fn refuse_check(run: &mut Run, store: &Lent, want: Result<(), Refusal>) -> Result<(), AllocError> {
    refuse(run, store, Call::Check, TOO_SHORT, Word::of_test(want))
}

// All calls on a store that is refused whatever is asked.
fn refuse_store(run: &mut Run, store: &mut Lent, why: Refusal) -> Result<(), AllocError> {
    refuse_at(run, store, BEYOND, why)?;
    refuse_check(run, store, Err(why))?;
    refuse_event(run, store, why)
}

// Each buffer one short of document 01's size. At just that size the store passes, and it is the position and the event that
// are refused.
fn refuse_short(run: &mut Run) -> Result<(), AllocError> {
    let short = [
        Sizes {
            clocks: JUST.clocks - 1,
            ..JUST
        },
        Sizes {
            held: JUST.held - 1,
            ..JUST
        },
        Sizes {
            order: JUST.order - 1,
            ..JUST
        },
    ];
    let mut store = Lent::new(&run.day);
    for sizes in short {
        store.sizes = sizes;
        refuse_store(run, &mut store, Refusal::ShortBuffer)?;
    }
    store.sizes = JUST;
    refuse_at(run, &store, BEYOND, Refusal::NoSuchPosition)?;
    refuse_check(run, &store, Ok(()))?;
    refuse_event(run, &mut store, Refusal::NoSuchTablet)
}

// Records with a number of tablets or events that cannot be. With one event more than there are, the mark in the order byte
// names no tablet.
pub(crate) fn refuse_records(run: &mut Run) -> Result<(), AllocError> {
    let sound = run.day.record();
    let records = [
        (
            Record {
                tablets: 0,
                ..sound
            },
            Refusal::NoSuchTabletCount,
        ),
        (
            Record {
                tablets: 9,
                ..sound
            },
            Refusal::NoSuchTabletCount,
        ),
        (
            Record {
                events: 2033,
                ..sound
            },
            Refusal::InvalidStore,
        ),
        (
            Record {
                events: sound.events.saturating_add(1),
                ..sound
            },
            Refusal::InvalidStore,
        ),
    ];
    let mut store = Lent::new(&run.day);
    for (record, why) in records {
        store.record = record;
        refuse_store(run, &mut store, why)?;
    }
    refuse_short(run)
}

fn refuse_set(run: &mut Run, store: &Lent, range: Range, set: u8) -> Result<(), AllocError> {
    refuse(
        run,
        store,
        ask_set(range, set),
        0,
        Word::Refused(Refusal::BadSet),
    )
}

// Gathering with a last position above T, and with one below the first, each before an output that takes no cut; and that output
// at positions that are not refused.
fn refuse_gathering(run: &mut Run, store: &Lent, last: u16) -> Result<(), AllocError> {
    let above = last.saturating_add(1);
    let ranges = [
        (0, above, Refusal::NoSuchPosition),
        (above, last, Refusal::NoSuchPosition),
        (0, last, Refusal::ShortOutput),
    ];
    for (first, last, why) in ranges {
        let asked = Call::Gather(Position(first), Position(last));
        refuse(run, store, asked, TOO_SHORT, Word::Refused(why))?;
    }
    Ok(())
}

// Positions above T; the empty set, and one that names the tablet behind the last, of an interval and of the whole trace.
pub(crate) fn refuse_questions(run: &mut Run) -> Result<(), AllocError> {
    let store = Lent::new(&run.day);
    let last = run.day.last();
    refuse_at(
        run,
        &store,
        Position(last.saturating_add(1)),
        Refusal::NoSuchPosition,
    )?;
    refuse_gathering(run, &store, last)?;
    refuse_set(run, &store, Range::Interval(Position(0)), 0)?;
    refuse_set(run, &store, Range::Whole, 0)?;
    // The lowest set that names it; with eight tablets no set does.
    if let Some(beyond) = 1u8.checked_shl(u32::from(run.day.tablets)) {
        let set = beyond | run.draw.below(usize::from(beyond)) as u8;
        refuse_set(run, &store, Range::Whole, set)?;
    }
    Ok(())
}

// An order byte, or one byte of the clock of some event, is changed by one, up or down.
fn draw_change(run: &mut Run, store: &mut Lent) {
    let index = run.draw.below(run.day.events.len());
    let up = run.draw.once_in(2);
    let by_one = |byte: u8| if up {
        byte.wrapping_add(1)
    } else {
        byte.wrapping_sub(1)
    };
    let in_order = run.draw.once_in(4);
    let Some(event) = run.day.events.get(index).copied() else {
        return;
    };
    if in_order {
        store.change_order(index, by_one(event.tablet.0));
    } else {
        let column = run.draw.below(8);
        store.change_entry(event, column, by_one(entry(&event.clock, column)));
    }
}

// One byte of the store is changed by one: what the store's own test says, and all calls where it is not valid.
pub(crate) fn change_byte(run: &mut Run) -> Result<(), AllocError> {
    let mut store = Lent::new(&run.day);
    draw_change(run, &mut store);
    if holds_trace(run.alloc, &store)? {
        return refuse_check(run, &store, Ok(()));
    }
    refuse_check(run, &store, Err(Refusal::InvalidStore))?;
    refuse_store(run, &mut store, Refusal::InvalidStore)
}
