// Document 01's cases of stores and cuts and a second lister, run beside the library and compared. What is printed are counts
// of what was compared; a difference is printed with its trace, so that the stored output matches only where all agree.
#![tactic(auto)]

mod calls;
mod compare;
mod damaged;
mod day;
mod fixed;
mod gathering;
mod generate;
mod lend;
mod moving;
mod notes;
mod offers;
mod output;
mod parts;
mod run;
mod second;
mod traces;

use damaged::{change_byte, refuse_questions, refuse_records};
use fixed::{try_all_full, try_empty, try_one_full};
use offers::{offer_drawn, open};
use run::Run;
use std::alloc::{AllocError, Global};
use std::io;
use traces::{compare_other_order, compare_trace};

// What is refused of a day's store.
fn try_refusals(run: &mut Run) -> Result<(), AllocError> {
    refuse_records(run)?;
    refuse_questions(run)?;
    if run.day.last() != 0 {
        change_byte(run)?;
    }
    Ok(())
}

// One drawn trace, in two orders.
fn try_trace(run: &mut Run, tablets: u8, most: usize, talk: usize) -> Result<(), AllocError> {
    open(run, tablets)?;
    offer_drawn(run, most, talk)?;
    try_refusals(run)?;
    let compared = compare_trace(run)?;
    compare_other_order(run, &compared)
}

// Traces of each number of tablets, with up to 29 events and five measures of talk between tablets.
fn try_traces(run: &mut Run) -> Result<(), AllocError> {
    for most in 0..30 {
        for tablets in 1..=8 {
            try_trace(run, tablets, most, most % 5)?;
        }
    }
    Ok(())
}

// The edge sizes: no events, one tablet full, all tablets full.
fn try_edges(run: &mut Run) -> Result<(), AllocError> {
    try_empty(run)?;
    try_one_full(run)?;
    try_all_full(run)
}

fn try_all(alloc: Global) -> Result<Run, AllocError> {
    let mut run = Run::new(alloc, 20260);
    try_edges(&mut run)?;
    try_traces(&mut run)?;
    Ok(run)
}

fn main(rt: HostRuntime) -> io::Result<()> {
    let run = try_all(rt.alloc())?;
    // A write that fails is passed over: nobody is left to tell.
    let _ = print!(rt; "{}", run.notes);
    Ok(())
}
