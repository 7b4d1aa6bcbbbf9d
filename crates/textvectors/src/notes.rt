// What was compared: a counter for each kind of comparison and for each refusal number. A difference is printed at once, with the
// text that it was found at, so that a run that is cut off has shown it. The notes of `vectors` have other kinds and a log; the
// counters of both are those of `trials`. A write that fails is passed over: nobody is left to tell.
use crate::lend::{Told, number_of};
use model::Refusal;
use std::io::Write;
use std::{fmt, io};
use trials::Counts;

// The kinds of comparison, by the numbers that a difference is printed with.
#[derive(Clone, Copy)]
pub(crate) enum Kind {
    Pieces = 8,
    Rests,
    Refusals,
    Readings,
    Cells,
    Fixed,
}

// The other program has its own: see docs/DECISIONS.md, "There are two such programs".
#[derive(Drop)]
pub(crate) struct Notes {
    // How many texts of the input were begun, and how many days drawn.
    pub cases: u64,
    pub traces: u64,
    // By the numbers of the kinds.
    compared: Counts<16>,
    // How often each refusal number was expected and given.
    refused: Counts<16>,
    differences: u64,
    // What is printed goes there.
    rt: HostRuntime,
}

impl Notes {
    pub(crate) fn new(rt: HostRuntime) -> Notes {
        Notes {
            cases: 0,
            traces: 0,
            compared: Counts::new(),
            refused: Counts::new(),
            differences: 0,
            rt,
        }
    }

    fn compared(&self, kind: Kind) -> u64 {
        self.compared.at(kind as usize)
    }

    // One comparison, made while a text is tried.
    pub(crate) fn same(&mut self, kind: Kind, want: usize, got: usize, text: &[u8]) {
        self.compared.add(kind as usize);
        if want != got {
            self.differences = self.differences.saturating_add(1);
            let _ = self.tell(kind, want, got, text);
        }
    }

    // A difference; the first hundred with their texts, which may be any bytes.
    fn tell(&self, kind: Kind, want: usize, got: usize, text: &[u8]) -> io::Result<()> {
        let number = kind as u8;
        println!(self.rt; "DIFFERENT kind={number}\nwant={want}\ngot={got}")?;
        if self.differences <= 100 {
            println!(self.rt; "behind cases={}\ntext of bytes={}", self.cases, text.len())?;
            io::writer(&self.rt).write_all(text)?;
        }
        Ok(())
    }

    // The same of a refusal number, 0 for none, which is counted where it is given as expected.
    fn same_number(&mut self, kind: Kind, want: usize, got: usize, text: &[u8]) {
        if want == got {
            self.refused.add(want);
        }
        self.same(kind, want, got, text);
    }

    // Of a refusal, or of none.
    pub(crate) fn same_refusal(
        &mut self,
        kind: Kind,
        want: Option<Refusal>,
        got: Option<Refusal>,
        text: &[u8],
    ) {
        self.same_number(kind, number_of(want), number_of(got), text);
    }

    // Of all that a reading says. By field, not by ==: each is a comparison of its own, which the stored output counts.
    pub(crate) fn same_told(&mut self, kind: Kind, want: Told, got: Told, text: &[u8]) {
        self.same_number(kind, want.number, got.number, text);
        self.same(kind, want.line, got.line, text);
        self.same(kind, want.tablets, got.tablets, text);
        self.same(kind, want.events, got.events, text);
    }

    pub(crate) fn print(&self) {
        let _ = print!(self.rt; "{self}");
    }
}

// The summary.
impl fmt::Display for Notes {
    fn fmt<W: fmt::Write>(&self, f: &mut fmt::Formatter<W>) -> fmt::Result {
        writeln!(f, "cases read={}", self.cases)?;
        writeln!(f, "traces={}", self.traces)?;
        writeln!(f, "cells={}", self.compared(Kind::Cells))?;
        writeln!(f, "rests={}", self.compared(Kind::Rests))?;
        writeln!(f, "refusals={}", self.compared(Kind::Refusals))?;
        writeln!(f, "pieces={}", self.compared(Kind::Pieces))?;
        writeln!(f, "readings={}", self.compared(Kind::Readings))?;
        writeln!(f, "fixed={}", self.compared(Kind::Fixed))?;
        for number in 1..16 {
            writeln!(f, "refused {number}={}", self.refused.at(number))?;
        }
        writeln!(f, "differences={}", self.differences)
    }
}
