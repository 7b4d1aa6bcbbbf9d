// What a run keeps from one trial to the next: the rule that draws, the day, and the notes of what was compared.
use crate::calls::Word;
use crate::day::Day;
use crate::notes::{Kind, Notes};
use model::{Place, Record, Refusal};
use std::alloc::{AllocError, Global};
use std::fmt;

// 48271 x mod 2^31 - 1.
pub(crate) type Draw = trials::Draw<48271>;

// The other program has its own: see docs/DECISIONS.md, "There are two such programs".
#[derive(Drop)]
pub(crate) struct Run {
    pub alloc: Global,
    pub draw: Draw,
    pub day: Day,
    pub notes: Notes,
}

impl Run {
    pub(crate) fn new(alloc: Global, seed: u64) -> Run {
        Run {
            alloc,
            draw: Draw::new(seed),
            day: Day::new(alloc, 0),
            notes: Notes::new(alloc),
        }
    }

    // One comparison: what is wanted beside what the library gave.
    pub(crate) fn same<T: PartialEq + fmt::Debug + Copy>(
        &mut self,
        kind: Kind,
        want: T,
        got: T,
    ) -> Result<(), AllocError> {
        self.notes.add_compared(kind);
        if want != got {
            self.notes.add_difference(
                format_args!("kind={kind} want={want:?} got={got:?}"),
                &self.day,
            )?;
        }
        Ok(())
    }

    // By field here and below, not by ==: each is a comparison of its own, which the stored output counts.
    pub(crate) fn same_record(
        &mut self,
        kind: Kind,
        want: Record,
        got: Record,
    ) -> Result<(), AllocError> {
        self.same(kind, want.tablets, got.tablets)?;
        self.same(kind, want.events, got.events)
    }

    pub(crate) fn same_place(
        &mut self,
        kind: Kind,
        want: Place,
        got: Place,
    ) -> Result<(), AllocError> {
        self.same(kind, want.begun, got.begun)?;
        self.same(kind, want.cut.counts, got.cut.counts)
    }

    // The same of what a call says. A refusal that was expected and given is noted by its number.
    pub(crate) fn said(&mut self, kind: Kind, want: Word, got: Word) -> Result<(), AllocError> {
        self.same(kind, want, got)?;
        if let Word::Refused(why) = want
            && want == got
        {
            self.notes.add_refused(why);
        }
        Ok(())
    }

    pub(crate) fn refused(
        &mut self,
        kind: Kind,
        why: Refusal,
        got: Word,
    ) -> Result<(), AllocError> {
        self.said(kind, Word::Refused(why), got)
    }
}
