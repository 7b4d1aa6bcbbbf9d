// Whole traces: every interval and some questions compared, the sums of counts, and the same events in another order.
use crate::calls::place_behind;
use crate::compare::{Plan, compare_answer, compare_count, list_from, list_refused, list_through};
use crate::day::Day;
use crate::gathering::compare_gathering;
use crate::generate::draw_cut;
use crate::lend::Lent;
use crate::notes::Kind;
use crate::offers::offer;
use crate::run::{Draw, Run};
use crate::second::{Lists, ready, sum_held};
use model::{Position, Question, Range, Refusal};
use std::alloc::AllocError;
use std::mem;
use trials::entries::Entries;

// A choice, no conversion. The outputs that are lent: one cut, one and a rest, two, three, and many.
fn draw_length(draw: &mut Draw) -> usize {
    match draw.below(5) {
        0 => 8,
        1 => 15,
        2 => 16,
        3 => 24,
        _ => 512,
    }
}

// A set of tablets that is not empty and names none above n.
fn draw_set(run: &mut Run) -> u8 {
    let others = 8u8.saturating_sub(run.day.tablets);
    let all = u8::MAX.checked_shr(u32::from(others)).unwrap_or(0);
    run.draw.below(usize::from(all)) as u8 + 1
}

// A sum that some cut has, or one more.
fn draw_sum(run: &mut Run, cuts: &[Entries]) -> u32 {
    let index = run.draw.below(cuts.len());
    let sum = cuts.get(index).map_or(0, |cut| sum_held(&run.day, cut));
    sum.saturating_add(run.draw.below(2) as u32)
}

fn draw_question(run: &mut Run, cuts: &[Entries]) -> Question {
    match run.draw.below(3) {
        0 => Question::AtLeast(draw_sum(run, cuts)),
        1 => Question::Exactly(draw_sum(run, cuts)),
        _ => Question::All(draw_set(run)),
    }
}

// Questions put to cuts of a store.
fn ask_some(
    run: &mut Run,
    store: &Lent,
    range: Range,
    cuts: &[Entries],
    count: usize,
) -> Result<(), AllocError> {
    for _ in 0..count {
        let question = draw_question(run, cuts);
        compare_answer(run, store, range, cuts, question)?;
    }
    Ok(())
}

// From a place drawn near the interval: the cuts behind it, or refused where it is not in the interval; and refused before that
// where not even one cut fits.
fn list_from_drawn(run: &mut Run, plan: Plan) -> Result<(), AllocError> {
    let place = place_behind(draw_cut(&mut run.draw, &run.day));
    let short = Plan {
        length: run.draw.below(8),
        ..plan
    };
    list_refused(run, short, place, Refusal::ShortOutput)?;
    list_from(run, plan, place)
}

// One interval: what the library lists, gathers, answers and counts. The count is handed on to be summed.
fn compare_interval(
    run: &mut Run,
    plan: Plan,
    lists: &Lists,
    listed: &mut Vec<Entries>,
) -> Result<u64, AllocError> {
    let position = plan.position;
    list_through(run, plan, listed)?;
    list_from_drawn(run, plan)?;
    compare_gathering(run, plan.store, position.0, position.0, lists, plan.length)?;
    ask_some(run, plan.store, Range::Interval(position), plan.cuts, 2)?;
    compare_count(run, plan)
}

// Every interval of a trace against the second lister's; the counts have to add up to the number of all cuts.
fn compare_intervals(
    run: &mut Run,
    store: &Lent,
    lists: &Lists,
    listed: &mut Vec<Entries>,
) -> Result<(), AllocError> {
    let mut sum: u64 = 0;
    for (position, cuts) in (0..=run.day.last()).zip(lists.intervals.iter()) {
        let plan = Plan {
            store,
            position: Position(position),
            cuts: cuts.as_slice(),
            length: draw_length(&mut run.draw),
        };
        let count = compare_interval(run, plan, lists, listed)?;
        sum = sum.saturating_add(count);
    }
    run.same(Kind::Sums, lists.all.len() as u64, sum)
}

// The cuts of several intervals, one behind the other.
fn gather_drawn(run: &mut Run, store: &Lent, lists: &Lists) -> Result<(), AllocError> {
    let intervals = usize::from(run.day.last()) + 1;
    let first = run.draw.below(intervals);
    let more = run.draw.below(intervals - first);
    let length = draw_length(&mut run.draw);
    compare_gathering(
        run,
        store,
        first as u16,
        (first + more) as u16,
        lists,
        length,
    )
}

// How many cuts a day has by the second lister, and all that the library listed of it.
#[derive(Drop)]
pub(crate) struct Compared {
    pub total: usize,
    pub listed: Vec<Entries>,
}

// All that is compared of a day.
pub(crate) fn compare_trace(run: &mut Run) -> Result<Compared, AllocError> {
    run.notes.add_trace(run.day.vectors());
    let store = Lent::new(&run.day);
    let lists = Lists::new(run.alloc, &run.day)?;
    let mut listed = Vec::new(run.alloc);
    compare_intervals(run, &store, &lists, &mut listed)?;
    gather_drawn(run, &store, &lists)?;
    ask_some(run, &store, Range::Whole, lists.all.as_slice(), 8)?;
    Ok(Compared {
        total: lists.all.len(),
        listed,
    })
}

// The same events, offered in another order: always the last one that is ready.
fn reorder(run: &mut Run, day: &Day) -> Result<(), AllocError> {
    for _ in 0..day.last() {
        let next = day
            .events
            .iter()
            .rev()
            .copied()
            .find(|event| ready(&run.day, *event));
        let Some(event) = next else {
            break;
        };
        offer(run, event)?;
    }
    Ok(())
}

// The library's lists of all intervals of the one order and of the other have the same number of cuts, and those of the one are
// among those of the other. Each list has a cut once, as the second lister has it.
fn compare_orders(run: &mut Run, before: &Compared, mut again: Compared) -> Result<(), AllocError> {
    again.listed.sort()?;
    run.same(Kind::Orders, before.listed.len(), again.listed.len())?;
    for cut in before.listed.iter() {
        run.same(Kind::Orders, true, again.listed.binary_search(cut).is_ok())?;
    }
    Ok(())
}

// The day once more, its events in another order.
pub(crate) fn compare_other_order(run: &mut Run, before: &Compared) -> Result<(), AllocError> {
    let other = Day::new(run.alloc, run.day.tablets);
    let day = mem::replace(&mut run.day, other);
    reorder(run, &day)?;
    let again = compare_trace(run)?;
    compare_orders(run, before, again)
}
