// The edge sizes: one tablet full, all tablets full.
use crate::day::{Day, tablet_of};
use crate::notes::Kind;
use crate::readings::{read_behind, read_whole};
use crate::run::Run;
use crate::stores::Lent;
use crate::trace::Trace;
use model::{Event, Refusal};
use std::io;
use trials::entries::{Entries, entry, with_entry};

// The next event of a chain: it knows all before it.
fn next_of_chain(clock: &mut Entries, column: usize, held: u16) -> Event {
    let number = entry(clock, column).saturating_add(1);
    *clock = with_entry(*clock, column, number);
    Event {
        tablet: tablet_of(column),
        clock: *clock,
        held,
    }
}

// So many events of the tablets in turn; then a full tablet's event 254 is read, its event 255 refused.
fn read_chain(run: &mut Run, tablets: u8, events: u16) -> io::Result<()> {
    let mut day = Day::new(run.alloc, tablets);
    let mut clock = [0; 8];
    for count in 0..events {
        let column = if tablets == 1 {
            0
        } else {
            usize::from(count % 8)
        };
        day.keep(next_of_chain(&mut clock, column, count))?;
    }
    let trace = Trace::new(run.alloc, day)?;
    read_whole(&mut run.notes, &trace, Lent::Roomy);
    read_whole(&mut run.notes, &trace, Lent::Exact);
    let beyond = next_of_chain(&mut clock, 0, 65535);
    read_behind(&mut run.notes, &trace, &beyond, Refusal::TabletFull)?;
    run.notes.same(
        Kind::Fixed,
        usize::from(events),
        trace.day.events.len(),
        trace.bytes(),
    );
    Ok(())
}

pub(crate) fn try_full(run: &mut Run) -> io::Result<()> {
    read_chain(run, 1, 254)?;
    read_chain(run, 8, 2032)
}
