// Where a turn leaves the reading.
use model::{Record, Refusal};

// What follows there: an event or the last line, with the tallies that go with the store; nothing, since the text was read;
// or nothing, since it is refused there.
// Not a Result over an Option: Ok(None) would have to mean "read", and a refusal moves the reader too.
#[derive(Clone, Copy)]
pub(crate) enum Next {
    More([u8; 8]),
    Read,
    Refused(Refusal),
}

// How many bytes and lines the reader is to be moved on, the record that goes with the store, and what follows. A refusal
// moves the reader to the line that it names.
#[derive(Clone, Copy)]
pub(crate) struct Step {
    pub bytes: usize,
    pub lines: usize,
    pub record: Record,
    pub next: Next,
}
