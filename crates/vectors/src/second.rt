// The second lister: document 01's rules once more, straight from their sentences and over the program's own day. It calls
// nothing of the library, and only names refusals and questions as the library does.
use crate::day::Day;
use model::{Event, Question, Refusal};
use std::alloc::{AllocError, Global};
use trials::entries::{Entries, at_most, column_of, entry, with_entry};

// Whether all entries but one column's are at most the tallies. A tablet that the day does not have has no events.
fn others_happened(day: &Day, own: usize, clock: &Entries) -> bool {
    clock
        .iter()
        .zip(&day.tallies)
        .enumerate()
        .all(|(column, (entry, tally))| column == own || entry <= tally)
}

// Whether what these events knew, one of each tablet by its number, is at most a clock. An event 0 knows nothing.
fn covers(day: &Day, clock: &Entries, events: &Entries) -> bool {
    events.iter().enumerate().all(|(column, number)| at_most(&day.clock(column, *number), clock))
}

// Rule 16: the event before on the tablet itself, and the last that is known of each other one.
fn known_covered(day: &Day, own: usize, clock: &Entries) -> bool {
    covers(day, clock, &with_entry(*clock, own, day.tally(own)))
}

// Whether an event may follow, and why not. Entries of other tablets are rule 15.
pub(crate) fn follow(day: &Day, event: Event) -> Result<(), Refusal> {
    if !(1..=day.tablets).contains(&event.tablet.0) {
        return Err(Refusal::NoSuchTablet);
    }
    let own = column_of(event.tablet.0);
    if 254 <= day.tally(own) {
        return Err(Refusal::TabletFull);
    }
    if !is_next(day, event) {
        return Err(Refusal::OwnEntryNotNext);
    }
    if !others_happened(day, own, &event.clock) {
        return Err(Refusal::EntryTooHigh);
    }
    if !known_covered(day, own, &event.clock) {
        return Err(Refusal::NotCovered);
    }
    Ok(())
}

fn is_next(day: &Day, event: Event) -> bool {
    let own = column_of(event.tablet.0);
    u16::from(entry(&event.clock, own)) == u16::from(day.tally(own)) + 1
}

// Whether an event is its tablet's next and all that it knows of other tablets has been written down already.
pub(crate) fn ready(day: &Day, event: Event) -> bool {
    others_happened(day, column_of(event.tablet.0), &event.clock) && is_next(day, event)
}

// Rule 21.
fn consistent(day: &Day, cut: &Entries) -> bool {
    at_most(cut, &day.tallies) && covers(day, cut, cut)
}

// All vectors up to the tallies, the last tablet turning fastest.
#[derive(Drop)]
struct Vectors {
    next: Option<Entries>,
    tallies: Entries,
}

// The vector behind one, none behind the last.
fn turned(vector: Entries, tallies: &Entries) -> Option<Entries> {
    let mut next = vector;
    for column in (0..8).rev() {
        let number = entry(&next, column);
        if number < entry(tallies, column) {
            return Some(with_entry(next, column, number + 1));
        }
        next = with_entry(next, column, 0);
    }
    None
}

impl Iterator for Vectors {
    type Item = Entries;

    fn next(&mut self) -> Option<Entries> {
        let vector = self.next?;
        self.next = turned(vector, &self.tallies);
        Some(vector)
    }
}

// More vectors than any trace of this program has.
const MOST_VECTORS: u64 = 16384;

// Every vector up to the tallies is tested; the consistent ones are listed. None is where there are too many to try.
fn list_all(alloc: Global, day: &Day) -> Result<Vec<Entries>, AllocError> {
    let mut cuts = Vec::new(alloc);
    if MOST_VECTORS < day.vectors() {
        return Ok(cuts);
    }
    let vectors = Vectors {
        next: Some([0; 8]),
        tallies: day.tallies,
    };
    for vector in vectors.take(MOST_VECTORS as usize) {
        if consistent(day, &vector) {
            cuts.push(vector)?;
        }
    }
    Ok(cuts)
}

// Of all cuts, those with Gmin <= G <= Gbnd of a position, in the same order. Position 0 has no event and no tallies, which
// leaves the empty cut to interval 0.
fn list_interval(
    alloc: Global,
    day: &Day,
    position: u16,
    all: &[Entries],
) -> Result<Vec<Entries>, AllocError> {
    let least = day.at(position).map_or([0; 8], |event| event.clock);
    let most = day.tallies_after(position);
    all.iter()
        .copied()
        .filter(|cut| at_most(&least, cut) && at_most(cut, &most))
        .collect(alloc)
}

// The cuts of a day: all of them, and those of each interval in turn.
#[derive(Drop)]
pub(crate) struct Lists {
    pub all: Vec<Entries>,
    pub intervals: Vec<Vec<Entries>>,
}

impl Lists {
    pub(crate) fn new(alloc: Global, day: &Day) -> Result<Lists, AllocError> {
        let all = list_all(alloc, day)?;
        let mut intervals = Vec::new(alloc);
        for position in 0..=day.last() {
            intervals.push(list_interval(alloc, day, position, all.as_slice())?)?;
        }
        Ok(Lists { all, intervals })
    }
}

// Rule 33: what each tablet holds at a cut.
fn holdings(day: &Day, cut: &Entries) -> [u16; 8] {
    let mut held = [0; 8];
    for (column, (blocks, number)) in held.iter_mut().zip(cut).enumerate() {
        *blocks = day.event(column, *number).map_or(0, |event| event.held);
    }
    held
}

pub(crate) fn sum_held(day: &Day, cut: &Entries) -> u32 {
    holdings(day, cut).iter().map(|held| u32::from(*held)).sum()
}

// The set of the tablets that hold something. Its lowest bit is tablet 1.
fn holders(day: &Day, cut: &Entries) -> u8 {
    holdings(day, cut)
        .iter()
        .rev()
        .fold(0, |set: u8, held| set << 1 | u8::from(*held != 0))
}

fn meets(day: &Day, cut: &Entries, question: Question) -> bool {
    match question {
        Question::AtLeast(count) => count <= sum_held(day, cut),
        Question::Exactly(count) => count == sum_held(day, cut),
        Question::All(set) => set & !holders(day, cut) == 0,
    }
}

// The first cut of a list that meets a question.
pub(crate) fn first_meeting(day: &Day, cuts: &[Entries], question: Question) -> Option<Entries> {
    cuts.iter().copied().find(|cut| meets(day, cut, question))
}
