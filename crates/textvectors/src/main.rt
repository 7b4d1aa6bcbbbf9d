// Document 01's cases of texts, and the library's writing and reading beside a second writer: run and compared. What is printed
// are counts of what was compared; a difference is printed with its text, so that the stored output matches only where all agree.
#![tactic(auto)]

mod cases;
mod day;
mod full;
mod generate;
mod lend;
mod notes;
mod readings;
mod run;
mod stores;
mod trace;
mod writings;

use cases::{INPUT_SIZE, try_cases};
use full::try_full;
use generate::draw_day;
use readings::compare_readings;
use run::Run;
use std::io::Result;
use trace::Trace;
use writings::{compare_pieces, refuse_writing};

// The file descriptor of standard input: the kit's crate `io` has no name for it.
const STDIN: i32 = 0;

// The traces that are drawn: 8 numbers of tablets, 40 times.
const DRAWN: usize = 320;

const SEED: u64 = 20260;

// One drawn trace: tablets, events and the talk between tablets go by its number.
fn try_trace(run: &mut Run, turn: usize) -> Result<()> {
    let tablets = (turn % 8) as u8 + 1;
    let day = draw_day(run, tablets, turn / 8 % 30, turn / 8 % 5)?;
    let trace = Trace::new(run.alloc, day)?;
    run.notes.traces = run.notes.traces.saturating_add(1);
    refuse_writing(run, &trace);
    compare_pieces(&mut run.notes, &trace);
    compare_readings(run, &trace)
}

fn main(rt: HostRuntime) -> Result<()> {
    let mut run = Run::new(rt, SEED);
    let mut input = [0; INPUT_SIZE];
    let length = io::read_full(STDIN, &mut input);
    try_cases(&mut run.notes, &input[..length]);
    try_full(&mut run)?;
    for turn in 0..DRAWN {
        try_trace(&mut run, turn)?;
    }
    run.notes.print();
    Ok(())
}
