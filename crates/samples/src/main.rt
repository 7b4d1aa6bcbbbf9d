// Runs each day of data/ through the crate `report` and compares what it makes, byte by byte, with the answer stored
// beside the day. One line for each day: its name and `same`, or where the two first differ.
#![tactic(auto)]

ghost use Rattle.io.specs.Counts.{IsPrefixLen};

use report::{Buffers, CLOCKS_SIZE, INPUT_SIZE, OUTPUT_SIZE, SLOTS};
use std::fmt;
use std::fs::File;
use std::io::Read;
use std::rt::Files;

// A program cannot list a folder, so each day is named here, with its answer; .ci/run fails where data/ has a file that is not.
const DAYS: [[&str; 2]; 14] = [
    ["clean-handover.txt", "clean-handover.answer"],
    ["held-twice.txt", "held-twice.answer"],
    ["missing-handover.txt", "missing-handover.answer"],
    ["restarted-tablet.txt", "restarted-tablet.answer"],
    ["hand-edit.txt", "hand-edit.answer"],
    ["eight-at-nine.txt", "eight-at-nine.answer"],
    ["named-set.txt", "named-set.answer"],
    ["noon-count.txt", "noon-count.answer"],
    ["long-day.txt", "long-day.answer"],
    ["full-day.txt", "full-day.answer"],
    ["two-days.txt", "two-days.answer"],
    ["busy-desk.txt", "busy-desk.answer"],
    ["mistyped-question.txt", "mistyped-question.answer"],
    ["tablet-not-in-use.txt", "tablet-not-in-use.answer"],
];

// One byte more than an answer has, enough to know that a stored one is longer.
const STORED_SIZE: usize = OUTPUT_SIZE + 1;

// Reads to the front of a buffer until it is full, the file ends or a read fails: what was read before a failure counts.
// A loop that does not count: each read says how far it came.
fn fill(file: &mut impl Read, buf: &mut [u8]) -> usize
    ensures { IsPrefixLen result buf.new }
{
    let mut done = 0;
    while done < buf.len() {
        match file.read(&mut buf[done..]) {
            Ok(count) if count > 0 => done += count,
            _ => break,
        }
    }
    done
}

// Reads a file to the front of a buffer, and no heap: a program that could run out of memory here would judge a day by the part
// of it that fitted. A file that cannot be opened is said on standard error, and counts as empty.
fn load(rt: &(impl Files + Eprint), path: &str, buf: &mut [u8]) -> usize
    ensures { IsPrefixLen result buf.new }
{
    match File::open(rt, path) {
        Ok(mut file) => fill(&mut file, buf),
        Err(error) => {
            // Nobody is left to tell where standard error fails too.
            let _ = eprintln!(rt; "{path}: {error}");
            0
        }
    }
}

// What a report and the stored answer are to each other.
#[derive(Clone, Copy)]
enum Outcome {
    Same,
    Different { at: usize, line: usize },
    Longer,
}

impl fmt::Display for Outcome {
    fn fmt<W: fmt::Write>(&self, f: &mut fmt::Formatter<W>) -> fmt::Result {
        match self {
            Outcome::Same => write!(f, "same"),
            Outcome::Different { at, line } => write!(
                f,
                "DIFFERENT at byte index {at}, line {line}"
            ),
            Outcome::Longer => write!(f, "DIFFERENT, longer than its output"),
        }
    }
}

// The first index at which two texts differ, or the shorter one's length where the other begins with it. No Option: it is printed
// in each case.
fn first_difference(made: &[u8], stored: &[u8]) -> usize {
    made.iter()
        .zip(stored)
        .take_while(|(made, stored)| made == stored)
        .count()
}

// The line of the byte at an index, from 1: one more than the line ends in front of it.
fn line_of(text: &[u8], at: usize) -> usize {
    let ends = text.iter().take(at).filter(|byte| **byte == b'\n').count();
    ends.saturating_add(1)
}

// No stored answer is empty, so an empty one is a file that is missing, and never the same.
fn compare(made: &[u8], stored: &[u8]) -> Outcome {
    if made == stored && !stored.is_empty() {
        return Outcome::Same;
    }
    let at = first_difference(made, stored);
    Outcome::Different {
        at,
        line: line_of(made, at),
    }
}

// Reports a day, and compares that with the stored answer. Not inlined, so that its buffers are not on the stack while a file is
// read.
#[inline(never)]
fn try_report(input: &[u8], stored: &[u8]) -> Outcome {
    let mut buffers = Buffers {
        clocks: &mut [0; CLOCKS_SIZE],
        held: &mut [0; SLOTS],
        order: &mut [0; SLOTS],
    };
    let mut out = [0; OUTPUT_SIZE];
    let reported = report::make_report(input, &mut buffers, &mut out);
    out.get(..reported.length)
        .map_or(Outcome::Longer, |made| compare(made, stored))
}

fn try_day(rt: &(impl Files + Print + Eprint), day: &str, answer: &str) {
    let mut input = [0; INPUT_SIZE];
    let mut stored = [0; STORED_SIZE];
    let given = load(rt, day, &mut input);
    let expected = load(rt, answer, &mut stored);
    let outcome = try_report(&input[..given], &stored[..expected]);
    // A write that fails is passed over: nobody is left to tell.
    let _ = println!(rt; "{day} {outcome}");
}

fn main(rt: HostRuntime) {
    for [day, answer] in &DAYS {
        try_day(&rt, day, answer);
    }
}
