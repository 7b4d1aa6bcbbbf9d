// The edge sizes: no events, one tablet full, all tablets full.
use crate::calls::{Call, Word};
use crate::compare::ask_store;
use crate::day::Day;
use crate::generate::tablet_of;
use crate::lend::Lent;
use crate::notes::Kind;
use crate::offers::{offer, open};
use crate::run::Run;
use crate::second::follow;
use crate::traces::compare_trace;
use model::{Event, Position, Refusal, Tablet};
use std::alloc::AllocError;
use trials::entries::{entry, with_entry};

fn counted(store: &Lent, position: u16) -> u64 {
    ask_store(store, Call::Count(Position(position)), 0)
        .said
        .number
}

// An event of which document 01 says what becomes of it; the store says the same.
fn offer_known(run: &mut Run, event: Event, known: Result<(), Refusal>) -> Result<(), AllocError> {
    let own = follow(&run.day, event);
    run.said(Kind::Fixed, Word::of_test(known), Word::of_test(own))?;
    offer(run, event)
}

// 1 to 8 tablets open, 0 and 9 do not; and each number of tablets without events has one cut.
pub(crate) fn try_empty(run: &mut Run) -> Result<(), AllocError> {
    for tablets in [0, 9, 255] {
        open(run, tablets)?;
    }
    for tablets in (1..=8).rev() {
        open(run, tablets)?;
        let compared = compare_trace(run)?;
        run.same(Kind::Fixed, 1, compared.total)?;
    }
    Ok(())
}

// A day with so many events of the tablets in turn, each knowing all before it.
fn chain(run: &mut Run, tablets: u8, most: u16) -> Result<(), AllocError> {
    run.day = Day::new(run.alloc, tablets);
    let mut clock = [0; 8];
    for held in 0..most {
        let column = usize::from(held % u16::from(tablets.max(1)));
        clock = with_entry(clock, column, entry(&clock, column).saturating_add(1));
        let tablet = tablet_of(column);
        run.day.add(Event {
            tablet,
            clock,
            held,
        })?;
    }
    Ok(())
}

// Each tablet has 254 events, and the next is refused.
fn offer_full(run: &mut Run, tablets: u8) -> Result<(), AllocError> {
    for tablet in 1..=tablets {
        let event = Event {
            tablet: Tablet(tablet),
            clock: [255; 8],
            held: 0,
        };
        offer_known(run, event, Err(Refusal::TabletFull))?;
    }
    Ok(())
}

// One tablet with 254 events, every interval of it.
pub(crate) fn try_one_full(run: &mut Run) -> Result<(), AllocError> {
    chain(run, 1, 253)?;
    let last = Event {
        tablet: Tablet(1),
        clock: [254, 0, 0, 0, 0, 0, 0, 0],
        held: u16::MAX,
    };
    offer_known(run, last, Ok(()))?;
    offer_full(run, 1)?;
    let compared = compare_trace(run)?;
    run.same(Kind::Fixed, 255, compared.total)
}

// A full store, 8 times 254 events: some counts, and no event more.
pub(crate) fn try_all_full(run: &mut Run) -> Result<(), AllocError> {
    chain(run, 8, 2032)?;
    let store = Lent::new(&run.day);
    let ends = counted(&store, 1).saturating_add(counted(&store, 2032));
    let last = run.day.last();
    run.same(Kind::Fixed, 2032, last)?;
    run.same(Kind::Fixed, 2, ends)?;
    offer_full(run, 8)
}
