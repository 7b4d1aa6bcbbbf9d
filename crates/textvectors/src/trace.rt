// A day and its text as the program's own writer has it, piece by piece.
use crate::day::Day;
use model::Event;
use std::alloc::{AllocError, Global};

#[derive(Drop)]
pub(crate) struct Trace {
    pub day: Day,
    // The `tablets` line, the lines of each event in turn, the `events` line.
    pub pieces: Vec<String>,
    // The pieces in one.
    text: String,
}

impl Trace {
    pub(crate) fn new(alloc: Global, day: Day) -> Result<Trace, AllocError> {
        let mut pieces = Vec::new(alloc);
        pieces.push(format!(in alloc; "tablets={}\n", day.tablets)?)?;
        for event in &day.events {
            pieces.push(event_lines(alloc, day.tablets, event)?)?;
        }
        let mut text = joined(alloc, &pieces)?;
        let last = format!(in alloc; "events={}\n", day.events.len())?;
        text.push_str(last.as_str())?;
        pieces.push(last)?;
        Ok(Trace { day, pieces, text })
    }

    pub(crate) fn bytes(&self) -> &[u8] {
        self.text.as_bytes()
    }

    // The text up to its last line, and then the lines of an event that may not follow.
    pub(crate) fn with_behind(&self, event: &Event) -> Result<String, AllocError> {
        let alloc = *self.text.allocator();
        let before = self.pieces.len().saturating_sub(1);
        let mut text = joined(alloc, &self.pieces[..before])?;
        text.push_str(event_lines(alloc, self.day.tablets, event)?.as_str())?;
        Ok(text)
    }

    // The text with another byte at an index.
    pub(crate) fn spoilt(&self, at: usize, wrong: u8) -> Result<Vec<u8>, AllocError> {
        let mut text = Vec::from_slice(*self.text.allocator(), self.bytes())?;
        if let Some(letter) = text.get_mut(at) {
            *letter = wrong;
        }
        Ok(text)
    }
}

fn joined(alloc: Global, pieces: &[String]) -> Result<String, AllocError> {
    let mut text = String::new(alloc);
    for piece in pieces {
        text.push_str(piece.as_str())?;
    }
    Ok(text)
}

fn event_lines(alloc: Global, tablets: u8, event: &Event) -> Result<String, AllocError> {
    let mut lines = format!(in alloc; "tablet={}\nclock=", event.tablet.0)?;
    for (column, count) in event.clock.iter().take(usize::from(tablets)).enumerate() {
        if column > 0 {
            lines.push(',')?;
        }
        write!(lines, "{count}")?;
    }
    write!(lines, "\nheld={}\n", event.held)?;
    Ok(lines)
}
