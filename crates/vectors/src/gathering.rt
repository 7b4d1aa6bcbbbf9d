// Gathering from a first interval to a last, beside the second lister's lists of the intervals.
use crate::calls::{Call, Word};
use crate::compare::{Answer, ask_store, compare_cuts, compare_rest};
use crate::lend::Lent;
use crate::notes::Kind;
use crate::output::Output;
use crate::parts::{behind, front};
use crate::run::Run;
use crate::second::Lists;
use model::Position;
use std::alloc::AllocError;
use trials::entries::Entries;

// How far a gathering has come: behind so many cuts written, of so many in all; the last of them and its interval.
#[derive(Clone, Copy)]
struct Reach {
    seen: usize,
    all: usize,
    cut: Entries,
    position: u16,
}

// One interval: as many of its cuts as the output, of room for so many, still takes stand behind those before.
fn reach_interval(
    run: &mut Run,
    from: Reach,
    position: u16,
    cuts: &[Entries],
    room: usize,
    output: &Output,
) -> Result<Reach, AllocError> {
    let all = from.all.saturating_add(cuts.len());
    let written = front(cuts, room.saturating_sub(from.seen));
    let Some(cut) = written.last() else {
        return Ok(Reach { all, ..from });
    };
    compare_cuts(run, written, behind(output.cuts(), from.seen))?;
    Ok(Reach {
        seen: from.seen.saturating_add(written.len()),
        all,
        cut: *cut,
        position,
    })
}

fn reach_all(
    run: &mut Run,
    first: u16,
    last: u16,
    lists: &Lists,
    room: usize,
    output: &Output,
) -> Result<Reach, AllocError> {
    let mut reach = Reach {
        seen: 0,
        all: 0,
        cut: [0; 8],
        position: 0,
    };
    for position in first..=last {
        let Some(cuts) = lists.intervals.get(usize::from(position)) else {
            break;
        };
        reach = reach_interval(run, reach, position, cuts.as_slice(), room, output)?;
    }
    Ok(reach)
}

// By part, not by ==: each is a comparison of its own, which the stored output counts.
fn judge_gathering(run: &mut Run, want: Reach, got: &Answer) -> Result<(), AllocError> {
    let said = got.said;
    let word = Word::of_rest(want.seen < want.all);
    run.said(Kind::Gathered, word, said.word)?;
    run.same(Kind::Gathered, want.seen as u64, said.number)?;
    run.same(Kind::Gathered, true, said.place.begun)?;
    run.same(Kind::Gathered, want.cut, said.place.cut.counts)?;
    run.same(Kind::Gathered, want.position, said.position.0)?;
    compare_rest(run, &got.output, want.seen)
}

// A gathering of a day with these cuts: which cuts it writes, what it says, which bytes stay and where it stops.
pub(crate) fn compare_gathering(
    run: &mut Run,
    store: &Lent,
    first: u16,
    last: u16,
    lists: &Lists,
    length: usize,
) -> Result<(), AllocError> {
    let asked = Call::Gather(Position(first), Position(last));
    let got = ask_store(store, asked, length);
    let want = reach_all(run, first, last, lists, length / 8, &got.output)?;
    judge_gathering(run, want, &got)
}
