// Traces as tablets would log them, from a fixed rule: each tablet goes by its own clock, an event is its own or takes a
// message from another tablet, of that tablet's latest event or an older one. Damaged events have one thing wrong.
// The other program has its own: see docs/DECISIONS.md, "There are two such programs".
use crate::day::Day;
use crate::run::Draw;
use model::{Event, Tablet};
use trials::entries::{Entries, column_of, entry, largest, with_entry};

// The event of a tablet that a message came from: mostly its latest, sometimes an older one, 0 where it has none: no Option,
// as event 0 knows nothing (Day::clock).
fn draw_sent(draw: &mut Draw, latest: u8) -> u8 {
    if draw.once_in(3) {
        return draw.below(usize::from(latest) + 1) as u8;
    }
    latest
}

// Few blocks mostly, so that questions are met by some cuts and not by others; now and then the most.
fn draw_held(draw: &mut Draw) -> u16 {
    if draw.once_in(40) {
        return u16::MAX;
    }
    draw.below(3) as u16
}

// What a tablet knows at its next event but for that event: what it knew, and of four times about `talk` what some tablet
// sent.
fn draw_known(draw: &mut Draw, day: &Day, own: usize, talk: usize) -> Entries {
    let before = day.clock(own, day.tally(own));
    if talk <= draw.below(4) {
        return before;
    }
    let other = draw.column(day.tablets);
    let sent = draw_sent(draw, day.tally(other));
    largest(&before, &day.clock(other, sent))
}

// The next event of some tablet.
pub(crate) fn draw_event(draw: &mut Draw, day: &Day, talk: usize) -> Event {
    let own = draw.column(day.tablets);
    let known = draw_known(draw, day, own, talk);
    let number = day.tally(own).saturating_add(1);
    Event {
        tablet: tablet_of(own),
        clock: with_entry(known, own, number),
        held: draw_held(draw),
    }
}

// The tablet of a column.
pub(crate) fn tablet_of(column: usize) -> Tablet {
    Tablet((column % 8) as u8 + 1)
}

// A tablet number that no tablet has: 0, or one of the three above n.
fn wrong_tablet(draw: &mut Draw, day: &Day) -> Tablet {
    match draw.below(4) {
        0 => Tablet(0),
        above => Tablet(day.tablets.saturating_add(above as u8)),
    }
}

// These two are like each other in form alone: each is another thing wrong.
fn raised(clock: Entries, column: usize) -> Entries {
    with_entry(clock, column, entry(&clock, column).wrapping_add(1))
}

fn lowered(clock: Entries, column: usize) -> Entries {
    with_entry(clock, column, entry(&clock, column).wrapping_sub(1))
}

// A clock with one entry changed: its own or another tablet's by one, or any to some number.
fn wrong_clock(draw: &mut Draw, day: &Day, event: Event) -> Entries {
    let clock = event.clock;
    let own = column_of(event.tablet.0);
    match draw.below(6) {
        0 => raised(clock, own),
        1 => lowered(clock, own),
        2 => raised(clock, draw.column(day.tablets)),
        3 => lowered(clock, draw.column(day.tablets)),
        4 => with_entry(clock, draw.below(8), draw.below(256) as u8),
        _ => {
            let column = draw.below(8);
            with_entry(clock, column, draw_sent(draw, day.tally(column)))
        }
    }
}

// An event with one thing wrong, now and then none.
pub(crate) fn damage(draw: &mut Draw, day: &Day, event: Event) -> Event {
    if draw.once_in(5) {
        return Event {
            tablet: wrong_tablet(draw, day),
            ..event
        };
    }
    Event {
        clock: wrong_clock(draw, day, event),
        ..event
    }
}

// A vector up to the tallies; now and then any one entry is any number.
pub(crate) fn draw_cut(draw: &mut Draw, day: &Day) -> Entries {
    let mut cut = [0; 8];
    for (entry, tally) in cut.iter_mut().zip(&day.tallies) {
        *entry = draw.below(usize::from(*tally) + 1) as u8;
    }
    if draw.once_in(4) {
        return with_entry(cut, draw.below(8), draw.below(256) as u8);
    }
    cut
}
