// What was compared: a counter for each kind of comparison and for each refusal number, so that a run that compares nothing
// shows. A difference is noted with its trace.
use model::Refusal;
use std::alloc::{AllocError, Global};
use std::fmt;
use trials::Counts;

// The kinds of comparison, in the order in which the summary has them.
#[derive(Clone, Copy)]
pub(crate) enum Kind {
    Offers,
    Cells,
    Cuts,
    Listings,
    Moving,
    Rests,
    Gathered,
    Counts,
    Sums,
    Answers,
    Orders,
    Refusals,
    Fixed,
}

const KINDS: [Kind; 13] = [
    Kind::Offers,
    Kind::Cells,
    Kind::Cuts,
    Kind::Listings,
    Kind::Moving,
    Kind::Rests,
    Kind::Gathered,
    Kind::Counts,
    Kind::Sums,
    Kind::Answers,
    Kind::Orders,
    Kind::Refusals,
    Kind::Fixed,
];

impl fmt::Display for Kind {
    fn fmt<W: fmt::Write>(&self, f: &mut fmt::Formatter<W>) -> fmt::Result {
        let name = match self {
            Kind::Offers => "offers",
            Kind::Cells => "cells",
            Kind::Cuts => "cuts",
            Kind::Listings => "listings",
            Kind::Moving => "moving",
            Kind::Rests => "rests",
            Kind::Gathered => "gathered",
            Kind::Counts => "counts",
            Kind::Sums => "sums",
            Kind::Answers => "answers",
            Kind::Orders => "orders",
            Kind::Refusals => "refusals",
            Kind::Fixed => "fixed",
        };
        f.write_str(name)
    }
}

// The other program has its own: see docs/DECISIONS.md, "There are two such programs".
#[derive(Drop)]
pub(crate) struct Notes {
    traces: u64,
    offered: u64,
    vectors: u64,
    // By kind.
    compared: Counts<13>,
    // How often each refusal was expected and given, by its number.
    refused: Counts<16>,
    differences: u64,
    // All differences, the first hundred with their traces.
    log: String,
}

impl Notes {
    pub(crate) fn new(alloc: Global) -> Notes {
        Notes {
            traces: 0,
            offered: 0,
            vectors: 0,
            compared: Counts::new(),
            refused: Counts::new(),
            differences: 0,
            log: String::new(alloc),
        }
    }

    pub(crate) fn add_trace(&mut self, vectors: u64) {
        self.traces = self.traces.saturating_add(1);
        self.vectors = self.vectors.saturating_add(vectors);
    }

    pub(crate) fn add_offer(&mut self) {
        self.offered = self.offered.saturating_add(1);
    }

    pub(crate) fn add_compared(&mut self, kind: Kind) {
        self.compared.add(kind as usize);
    }

    pub(crate) fn add_refused(&mut self, why: Refusal) {
        self.refused.add(usize::from(u8::from(why)));
    }

    pub(crate) fn add_difference(
        &mut self,
        difference: impl fmt::Display + Drop,
        trace: &impl fmt::Display,
    ) -> Result<(), AllocError> {
        self.differences = self.differences.saturating_add(1);
        writeln!(self.log, "DIFFERENT {difference}")?;
        if self.differences <= 100 {
            write!(self.log, "{trace}")?;
        }
        Ok(())
    }
}

// The differences; then what the run compared, one line for each kind, and how often each refusal number was expected and given.
impl fmt::Display for Notes {
    fn fmt<W: fmt::Write>(&self, f: &mut fmt::Formatter<W>) -> fmt::Result {
        write!(f, "{}", self.log)?;
        writeln!(f, "traces={}", self.traces)?;
        writeln!(f, "events offered={}", self.offered)?;
        writeln!(f, "vectors={}", self.vectors)?;
        for kind in KINDS {
            writeln!(f, "{kind}={}", self.compared.at(kind as usize))?;
        }
        for number in 1..16 {
            writeln!(f, "refused {number}={}", self.refused.at(number))?;
        }
        writeln!(f, "differences={}", self.differences)
    }
}
