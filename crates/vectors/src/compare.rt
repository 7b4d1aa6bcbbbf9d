// The library's listing, counting and asking beside the second lister, cut by cut; and its listing through a lent place beside
// that by value.
use crate::calls::{Call, NO_PLACE, Said, Word, ask_library, place_behind};
use crate::lend::Lent;
use crate::notes::Kind;
use crate::output::Output;
use crate::parts::{behind, front};
use crate::run::Run;
use crate::second::first_meeting;
use model::{Cut, Job, Place, Position, Question, Range, Refusal};
use std::alloc::AllocError;
use trials::entries::Entries;

// What a call said, and what it left in the output that it was lent.
#[derive(Clone, Copy)]
pub(crate) struct Answer {
    pub said: Said,
    pub output: Output,
}

// One call on a store.
pub(crate) fn ask_store(store: &Lent, asked: Call, length: usize) -> Answer {
    let mut output = Output::new(length);
    let said = ask_library(store.trace(), asked, output.lent());
    Answer { said, output }
}

// What stands behind the cuts written, up to eight bytes behind what was lent, is as it was.
pub(crate) fn compare_rest(
    run: &mut Run,
    output: &Output,
    written: usize,
) -> Result<(), AllocError> {
    run.same(Kind::Rests, true, output.stays_behind(written))
}

// Cuts that were written against those that are wanted.
pub(crate) fn compare_cuts(
    run: &mut Run,
    want: &[Entries],
    got: &[Entries],
) -> Result<(), AllocError> {
    for (want, got) in want.iter().zip(got) {
        run.same(Kind::Cuts, *want, *got)?;
    }
    Ok(())
}

// What is said through a lent place, where the place then stands and each byte of the output are as `list` has them. By
// part, not by ==: each is a comparison of its own, which the stored output counts.
fn compare_moving(run: &mut Run, want: &Answer, got: &Answer) -> Result<(), AllocError> {
    run.same(Kind::Moving, want.said.word, got.said.word)?;
    run.same(Kind::Moving, want.said.number, got.said.number)?;
    run.same_place(Kind::Moving, want.said.place, got.said.place)?;
    run.same(Kind::Moving, true, want.output.is_like(&got.output))
}

// A call on a store. A listing is made both ways.
pub(crate) fn ask_both(
    run: &mut Run,
    store: &Lent,
    asked: Call,
    length: usize,
) -> Result<Answer, AllocError> {
    let answer = ask_store(store, asked, length);
    if let Call::List(position, place) = asked {
        let moving = ask_store(store, Call::Move(position, place), length);
        compare_moving(run, &answer, &moving)?;
    }
    Ok(answer)
}

// What is listed: an interval of a store, its cuts by the second lister, and how many bytes are lent.
#[derive(Clone, Copy)]
pub(crate) struct Plan<'a> {
    pub store: &'a Lent,
    pub position: Position,
    pub cuts: &'a [Entries],
    pub length: usize,
}

// How far a listing has come: behind so many cuts, and the place.
#[derive(Clone, Copy)]
pub(crate) struct Stand {
    pub seen: usize,
    pub place: Place,
}

// Not begun, with a cut that no trace has.
const NOWHERE: Stand = Stand {
    seen: 0,
    place: Place {
        begun: false,
        cut: Cut { counts: [255; 8] },
    },
};

// The place behind so many cuts more (rule 30).
fn moved(plan: Plan, from: Stand, count: usize) -> Stand {
    let seen = from.seen.saturating_add(count);
    match plan.cuts.get(seen.saturating_sub(1)) {
        Some(cut) if 0 < count => Stand {
            seen,
            place: place_behind(*cut),
        },
        _ => from,
    }
}

// What a listing said and wrote; where it stands behind it.
fn judge_listing(
    run: &mut Run,
    plan: Plan,
    from: Stand,
    got: &Answer,
) -> Result<Stand, AllocError> {
    let total = plan.cuts.len();
    let count = total.saturating_sub(from.seen).min(plan.length / 8);
    let after = moved(plan, from, count);
    let want = front(behind(plan.cuts, from.seen), count);
    run.said(
        Kind::Listings,
        Word::of_rest(after.seen < total),
        got.said.word,
    )?;
    run.same(Kind::Listings, count as u64, got.said.number)?;
    run.same_place(Kind::Listings, after.place, got.said.place)?;
    compare_cuts(run, want, got.output.cuts())?;
    compare_rest(run, &got.output, count)?;
    Ok(after)
}

// One listing call: how many cuts it writes and which, what it says, which bytes stay, and where the place stands behind it.
fn list_once(run: &mut Run, plan: Plan, from: Stand) -> Result<(Stand, Answer), AllocError> {
    let asked = Call::List(plan.position, from.place);
    let got = ask_both(run, plan.store, asked, plan.length)?;
    let after = judge_listing(run, plan, from, &got)?;
    Ok((after, got))
}

// More calls than any listing of this program needs.
const MOST_CALLS: usize = 65536;

// Call after call from a place that is not begun, each from the place that the last one left, until the interval is done; and
// one call more, when nothing remains. The cuts that the library wrote are kept.
pub(crate) fn list_through(
    run: &mut Run,
    plan: Plan,
    listed: &mut Vec<Entries>,
) -> Result<(), AllocError> {
    let mut stand = NOWHERE;
    for _ in 0..MOST_CALLS {
        let over = plan.cuts.len() <= stand.seen;
        let (after, got) = list_once(run, plan, stand)?;
        listed.extend_from_slice(front(got.output.cuts(), got.said.number as usize))?;
        stand = after;
        if over {
            break;
        }
    }
    Ok(())
}

// From a place: the cuts behind it where it is in the interval, and else it is refused.
pub(crate) fn list_from(run: &mut Run, plan: Plan, place: Place) -> Result<(), AllocError> {
    match plan.cuts.iter().position(|cut| *cut == place.cut.counts) {
        None => list_refused(run, plan, place, Refusal::PlaceOutside),
        Some(index) => {
            let seen = index.saturating_add(1);
            list_once(run, plan, Stand { seen, place })?;
            Ok(())
        }
    }
}

// A listing call that is refused: nothing is written, no byte and no place changes.
pub(crate) fn list_refused(
    run: &mut Run,
    plan: Plan,
    place: Place,
    why: Refusal,
) -> Result<(), AllocError> {
    let asked = Call::List(plan.position, place);
    let got = ask_both(run, plan.store, asked, plan.length)?;
    run.refused(Kind::Listings, why, got.said.word)?;
    run.same(Kind::Listings, 0, got.said.number)?;
    run.same_place(Kind::Listings, place, got.said.place)?;
    compare_rest(run, &got.output, 0)
}

pub(crate) fn compare_count(run: &mut Run, plan: Plan) -> Result<u64, AllocError> {
    let got = ask_store(plan.store, Call::Count(plan.position), 0).said;
    run.said(Kind::Counts, Word::Passed, got.word)?;
    run.same(Kind::Counts, plan.cuts.len() as u64, got.number)?;
    Ok(got.number)
}

// A question put to cuts of the store, which by the second lister are these.
pub(crate) fn compare_answer(
    run: &mut Run,
    store: &Lent,
    range: Range,
    cuts: &[Entries],
    question: Question,
) -> Result<(), AllocError> {
    let got = ask_store(store, Call::Ask(Job { question, range }), 0).said;
    let first = first_meeting(&run.day, cuts, question);
    let word = if first.is_some() {
        Word::Found
    } else {
        Word::NoCut
    };
    run.said(Kind::Answers, word, got.word)?;
    run.same(
        Kind::Answers,
        first.unwrap_or(NO_PLACE.cut.counts),
        got.place.cut.counts,
    )
}
