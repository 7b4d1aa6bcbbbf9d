// What is written is read back: whole, with an event behind it that may not follow, with a byte spoilt, cut off, and into stores
// that are too short.
use crate::day::Day;
use crate::generate::draw_wrong_event;
use crate::lend::{Told, read};
use crate::notes::{Kind, Notes};
use crate::run::{Draw, Run};
use crate::stores::{Buffer, Lent, Store};
use crate::trace::Trace;
use model::{Event, Refusal};
use std::io;

// How many cells of two buffers are not the same.
fn differing<T: PartialEq>(want: &[T], got: &[T]) -> usize {
    want.iter()
        .zip(got)
        .filter(|(want, got)| want != got)
        .count()
}

// The whole of the three buffers: the slots and order bytes of the events that are to be stored, and the mark everywhere else.
fn compare_cells(notes: &mut Notes, want: &Store, got: &Store, text: &[u8]) {
    let clocks = differing(want.clocks.as_flattened(), got.clocks.as_flattened());
    notes.same(Kind::Cells, 0, clocks, text);
    notes.same(Kind::Cells, 0, differing(&want.held, &got.held), text);
    notes.same(Kind::Cells, 0, differing(&want.order, &got.order), text);
}

// Reads a text: what is said of it, and what is stored, the first events of the day.
fn compare_reading(notes: &mut Notes, day: &Day, text: &[u8], lent: Lent, want: Told) {
    let mut store = Store::empty(lent);
    let got = read(text, &mut store);
    let stored = day.events.get(..want.events).unwrap_or(&day.events);
    compare_cells(notes, &Store::of(day.tablets, stored), &store, text);
    notes.same_told(Kind::Readings, want, got, text);
}

// The day's whole text.
pub(crate) fn read_whole(notes: &mut Notes, trace: &Trace, lent: Lent) {
    let day = &trace.day;
    let want = Told::whole(day.tablets, day.events.len());
    compare_reading(notes, day, trace.bytes(), lent, want);
}

// An event behind all others: refused at its `held` line, all before it kept.
pub(crate) fn read_behind(
    notes: &mut Notes,
    trace: &Trace,
    event: &Event,
    why: Refusal,
) -> io::Result<()> {
    let day = &trace.day;
    let text = trace.with_behind(event)?;
    let last = day.events.len();
    let line = last.saturating_mul(3).saturating_add(4);
    let want = Told::refused(why, line, day.tablets, last);
    compare_reading(notes, day, text.as_bytes(), Lent::Roomy, want);
    Ok(())
}

fn read_wrong_events(run: &mut Run, trace: &Trace) -> io::Result<()> {
    for _ in 0..4 {
        if let Some(wrong) = draw_wrong_event(&mut run.draw, &trace.day) {
            read_behind(&mut run.notes, trace, &wrong.event, wrong.why)?;
        }
    }
    Ok(())
}

// What is said where a text is right up to some byte and wrong there: the line is one more than the line ends before it, and the
// events whose three lines stand before that line are stored.
fn faulty(tablets: u8, before: &[u8]) -> Told {
    let ends = before.iter().filter(|byte| **byte == b'\n').count();
    let line = ends.saturating_add(1);
    match ends.checked_sub(1) {
        None => Told::refused(Refusal::FaultyLine, line, 0, 0),
        Some(behind_head) => Told::refused(Refusal::FaultyLine, line, tablets, behind_head / 3),
    }
}

// A choice, no conversion: bytes that no line of a text has.
fn draw_wrong_letter(draw: &mut Draw) -> u8 {
    match draw.below(6) {
        0 => b'x',
        1 => b' ',
        2 => b'\r',
        3 => b'+',
        4 => 0,
        _ => b'T',
    }
}

// The text with the byte at an index spoilt, and cut off before it.
fn read_damaged(notes: &mut Notes, trace: &Trace, at: usize, wrong: u8) -> io::Result<()> {
    let spoilt = trace.spoilt(at, wrong)?;
    let before = trace.bytes().get(..at).unwrap_or(&[]);
    let want = faulty(trace.day.tablets, before);
    compare_reading(notes, &trace.day, &spoilt, Lent::Roomy, want);
    compare_reading(notes, &trace.day, before, Lent::Roomy, want);
    Ok(())
}

// At an index of the text, then at ones before it.
fn read_less(run: &mut Run, trace: &Trace) -> io::Result<()> {
    let mut at = trace.bytes().len();
    for _ in 0..3 {
        at = run.draw.below(at);
        let wrong = draw_wrong_letter(&mut run.draw);
        read_damaged(&mut run.notes, trace, at, wrong)?;
    }
    Ok(())
}

// Each buffer one short of document 01's size: refused before the first line, so that there is no record and nothing is stored.
fn read_short(notes: &mut Notes, trace: &Trace) {
    let want = Told::refused(Refusal::ShortBuffer, 0, 0, 0);
    for short in [Buffer::Clocks, Buffer::Held, Buffer::Order] {
        compare_reading(notes, &trace.day, trace.bytes(), Lent::Short(short), want);
    }
}

// All that is read of a day's text.
pub(crate) fn compare_readings(run: &mut Run, trace: &Trace) -> io::Result<()> {
    read_whole(&mut run.notes, trace, Lent::Roomy);
    read_whole(&mut run.notes, trace, Lent::Exact);
    read_wrong_events(run, trace)?;
    read_less(run, trace)?;
    read_short(&mut run.notes, trace);
    Ok(())
}
