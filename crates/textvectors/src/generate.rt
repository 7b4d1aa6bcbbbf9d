// Events from a fixed rule: a tablet's next, which knows what the tablet knew and now and then what another tablet sent. A wrong
// one has one thing changed, so that it is known beforehand why it is refused.
// The other program has its own: see docs/DECISIONS.md, "There are two such programs".
use crate::day::{Day, tablet_of};
use crate::run::{Draw, Run};
use model::{Event, Refusal, Tablet};
use std::alloc::AllocError;
use trials::entries::{Entries, at_most, column_of, entry, largest, with_entry};

// A day of so many events, between whose tablets there is more or less talk.
pub(crate) fn draw_day(
    run: &mut Run,
    tablets: u8,
    events: usize,
    talk: usize,
) -> Result<Day, AllocError> {
    let mut day = Day::new(run.alloc, tablets);
    for _ in 0..events {
        let event = draw_event(&mut run.draw, &day, talk);
        day.keep(event)?;
    }
    Ok(day)
}

// What a message says from some tablet, mostly from its latest event, sometimes from an older one.
fn draw_message(draw: &mut Draw, day: &Day) -> Entries {
    let other = draw.column(day.tablets);
    let latest = day.tally(other);
    if draw.once_in(3) {
        let older = draw.below(usize::from(latest) + 1);
        day.known(other, older as u8)
    } else {
        day.known(other, latest)
    }
}

// Numbers of one digit up to five.
fn draw_held(draw: &mut Draw) -> u16 {
    match draw.below(4) {
        0 => 65535,
        1 => draw.below(65536) as u16,
        _ => draw.below(12) as u16,
    }
}

// The next event of some tablet; about `talk` times of four it has heard of another.
fn draw_event(draw: &mut Draw, day: &Day, talk: usize) -> Event {
    let own = draw.column(day.tablets);
    let before = day.tally(own);
    let mut clock = day.known(own, before);
    if draw.below(4) < talk {
        clock = largest(&clock, &draw_message(draw, day));
    }
    Event {
        tablet: tablet_of(own),
        clock: with_entry(clock, own, before.saturating_add(1)),
        held: draw_held(draw),
    }
}

// An event, and why it may not follow.
#[derive(Clone, Copy)]
pub(crate) struct WrongEvent {
    pub event: Event,
    pub why: Refusal,
}

// A tablet number that no tablet has: 0, or one of the three above n.
fn wrong_tablet(draw: &mut Draw, day: &Day, event: Event) -> WrongEvent {
    let number = match draw.below(4) {
        0 => 0,
        above => day.tablets.saturating_add(above as u8),
    };
    WrongEvent {
        event: Event {
            tablet: Tablet(number),
            ..event
        },
        why: Refusal::NoSuchTablet,
    }
}

// One entry of the clock is another.
fn wrong_entry(event: Event, column: usize, count: u8, why: Refusal) -> WrongEvent {
    let clock = with_entry(event.clock, column, count);
    WrongEvent {
        event: Event { clock, ..event },
        why,
    }
}

// The tablet's own entry one too high, or one too low.
fn wrong_own(draw: &mut Draw, event: Event, own: usize) -> WrongEvent {
    let number = entry(&event.clock, own);
    let wrong = if draw.once_in(2) {
        number.saturating_sub(1)
    } else {
        number.saturating_add(1)
    };
    wrong_entry(event, own, wrong, Refusal::OwnEntryNotNext)
}

// Another tablet's entry above its tally.
fn wrong_high(day: &Day, event: Event, other: usize) -> WrongEvent {
    let number = day.tally(other).saturating_add(1);
    wrong_entry(event, other, number, Refusal::EntryTooHigh)
}

// Another tablet's entry below what the tablet knew of it before, where it knew some.
fn wrong_low(day: &Day, event: Event, own: usize, other: usize) -> Option<WrongEvent> {
    let before = entry(&day.known(own, day.tally(own)), other);
    let number = before.checked_sub(1)?;
    Some(wrong_entry(event, other, number, Refusal::NotCovered))
}

// Another tablet's latest event, without what that one knew, where it knew more.
fn wrong_message(day: &Day, event: Event, other: usize) -> Option<WrongEvent> {
    let latest = day.tally(other);
    let wrong = wrong_entry(event, other, latest, Refusal::NotCovered);
    let sent = day.known(other, latest);
    if at_most(&sent, &wrong.event.clock) {
        return None;
    }
    Some(wrong)
}

// An event that may not follow, or none where this draw found nothing to change.
pub(crate) fn draw_wrong_event(draw: &mut Draw, day: &Day) -> Option<WrongEvent> {
    let event = draw_event(draw, day, 2);
    let own = column_of(event.tablet.0);
    let other = draw.column(day.tablets);
    if draw.once_in(4) {
        return Some(wrong_tablet(draw, day, event));
    }
    if other == own {
        return Some(wrong_own(draw, event, own));
    }
    match draw.below(3) {
        0 => Some(wrong_high(day, event, other)),
        1 => wrong_low(day, event, own, other),
        _ => wrong_message(day, event, other),
    }
}
