// The values that every call of the library takes and gives. What they mean is defined in specs/.
#![tactic(auto)]

// Three kinds of count, a type each, and a fourth that looks like the third.

// A tablet's number, from 1. 0 and numbers above n stand in it only as they are offered, in an event that is then refused, or
// in a store that is then found not valid. So where a contract needs one of 1 to 8 it says so: a type for those would be made
// from this one at each such call, by the same proof.
#[derive(Clone, Copy, PartialEq, Eq)]
pub struct Tablet(pub u8);

// An event's number on its tablet, from 1. Where the last event of a tablet is meant, 0 says that there is none yet.
#[derive(Clone, Copy, PartialEq, Eq)]
pub struct EventNumber(pub u8);

// A position in the trace: the event accepted first has 1. Where an interval is meant, 0 is the interval of the empty cut; where
// the events up to a position are meant, 0 is before the first.
#[derive(Clone, Copy, PartialEq, Eq)]
pub struct Position(pub u16);

// A piece of the text of a store: 0 is the `tablets` line, 1 to T the lines of the event at that position, T + 1 the `events`
// line. So it is no position: its first and its last are no event's.
#[derive(Clone, Copy, PartialEq, Eq)]
pub struct PieceNumber(pub u16);

// A cut: for each of eight tablets, how many of its events have happened. Entries above the number of tablets are zero.
#[derive(Clone, Copy, PartialEq, Eq)]
pub struct Cut {
    pub counts: [u8; 8],
}

// What goes with the three lent buffers of a store: the number of tablets, n, and of accepted events, T.
#[derive(Clone, Copy, PartialEq, Eq)]
pub struct Record {
    pub tablets: u8,
    pub events: u16,
}

// An event as a tablet logs it: who, what it knew, and how many blocks it holds afterwards.
#[derive(Clone, Copy, PartialEq, Eq)]
pub struct Event {
    pub tablet: Tablet,
    pub clock: [u8; 8],
    pub held: u16,
}

// Where a listing stands: nowhere yet, or just behind a cut. The cut of a place that is not begun is ignored. No Option of a
// cut: rule 51 leaves a lent place as it was, begun or not, cut and all.
#[derive(Clone, Copy, PartialEq, Eq)]
pub struct Place {
    pub begun: bool,
    pub cut: Cut,
}

// What is asked of a cut. A set of tablets is a mask, tablet 1 its lowest bit: rule 34 gives the set to the call so.
#[derive(Clone, Copy, PartialEq, Eq)]
pub enum Question {
    AtLeast(u32),
    Exactly(u32),
    All(u8),
}

// The cuts that a question is put to.
// No Option: the two are a caller's choice, not an answer that may be missing.
#[derive(Clone, Copy, PartialEq, Eq)]
pub enum Range {
    Interval(Position),
    Whole,
}

// A question, and the cuts that it is put to.
#[derive(Clone, Copy, PartialEq, Eq)]
pub struct Job {
    pub question: Question,
    pub range: Range,
}

// The refusals, in the order of their numbers, 1 to 15.
#[derive(Clone, Copy, PartialEq, Eq)]
pub enum Refusal {
    NoSuchTabletCount = 1,
    ShortBuffer,
    InvalidStore,
    NoSuchTablet,
    OwnEntryNotNext,
    EntryTooHigh,
    NotCovered,
    TabletFull,
    NoSuchPosition,
    PlaceOutside,
    CountTooLarge,
    FaultyLine,
    BadSet,
    ShortOutput,
    InputTooLong,
}

// rule 52: the number of a refusal. 0 is left for none.
impl From<Refusal> for u8 {
    ghost use Rattle.std.specs.Prelude.{◌≡◌};
    ghost use Rattle.model.specs.Refusals.{number_of};

    ghost from_gives = { λ why number. number ≡ number_of why };

    fn from(why: Refusal) -> u8 {
        why as u8
    }
}
