// The range that a question is put to, and the interval that is listed: a walk over its cuts, where it is known.
ghost use Rattle.std.specs.Prelude.{◌≡◌};
ghost use Rattle.cuts.specs.Outcomes.{TalliedAt};
ghost use Rattle.cuts.specs.Ranges.{IntervalWalk, IntervalRead, RangeRead};

use crate::sound::Sound;
use model::{Position, Range};
use steps::spans::{interval_span, tallies_after, trace_span};
use steps::walk::Walk;
use store::inner::Clocks;

impl<'a> Sound<'a> {
    // The clocks, which a sound trace has whole.
    #[tactic(auto, using(crate::proofs::Traces::clocks_full))]
    fn lent_clocks(self) -> Clocks<'a>
        ensures { result.bytes.now ≡ self.entry.clocks.now }
    {
        Clocks { bytes: self.clocks }
    }

    // The interval of a position, from its Gmin to the tallies after it, which the caller has at hand.
    #[tactic(auto, using(crate::proofs::Traces::countable_to))]
    pub(crate) fn interval_to(self, position: Position, tallies: [u8; 8]) -> Walk<'a>
        requires { TalliedAt self.record self.order.now position.0 tallies }
        ensures { IntervalWalk self.entry position.0 result }
    {
        let clocks = self.lent_clocks();
        let span = interval_span(clocks, self.order, position, tallies);
        Walk {
            tablets: self.record.tablets,
            clocks,
            low: span.low,
            high: span.high,
        }
    }

    // The interval of a position up to T.
    #[tactic(auto, using(crate::proofs::Traces::countable_to))]
    pub(crate) fn interval(self, position: Position) -> Option<Walk<'a>>
        ensures { IntervalRead self.entry position.0 result }
    {
        if self.record.events < position.0 {
            return None;
        }
        let tallies = tallies_after(self.order, position);
        Some(self.interval_to(position, tallies))
    }

    #[tactic(auto, using(crate::proofs::Traces::countable_to, crate::proofs::Traces::range_interval, crate::proofs::Traces::range_whole))]
    pub(crate) fn range(self, range: Range) -> Option<Walk<'a>>
        ensures { RangeRead self.entry range result }
    {
        match range {
            Range::Interval(position) => self.interval(position),
            Range::Whole => {
                let span = trace_span(self.order, self.record.events);
                Some(Walk {
                    tablets: self.record.tablets,
                    clocks: self.lent_clocks(),
                    low: span.low,
                    high: span.high,
                })
            }
        }
    }
}
