// Events are offered to the store and to the program's own rule.
use crate::calls::Word;
use crate::day::Day;
use crate::generate::{damage, draw_event};
use crate::lend::{Lent, accept_in_store};
use crate::notes::Kind;
use crate::run::Run;
use crate::second::follow;
use model::{Event, Record, Refusal};
use std::alloc::AllocError;

// The record of a store that does not open.
const NO_RECORD: Record = Record {
    tablets: 0,
    events: 0,
};

// A day without events; document 01 refuses 0 tablets and more than 8, with the record (0, 0).
pub(crate) fn open(run: &mut Run, tablets: u8) -> Result<(), AllocError> {
    let opened = store::open(tablets);
    let want = if (1..=8).contains(&tablets) {
        Ok(Record { tablets, events: 0 })
    } else {
        Err(Refusal::NoSuchTabletCount)
    };
    run.said(Kind::Offers, Word::of_test(want), Word::of_test(opened))?;
    let want = want.unwrap_or(NO_RECORD);
    run.same_record(Kind::Offers, want, opened.unwrap_or(NO_RECORD))?;
    run.day = Day::new(run.alloc, tablets);
    Ok(())
}

// One event, offered to both.
pub(crate) fn offer(run: &mut Run, event: Event) -> Result<(), AllocError> {
    let want = follow(&run.day, event);
    let mut store = Lent::new(&run.day);
    let got = accept_in_store(run, &mut store, event)?;
    run.said(Kind::Offers, Word::of_test(want), got)?;
    let record = run.day.record();
    run.same_record(Kind::Offers, record, store.record)?;
    run.notes.add_offer();
    Ok(())
}

// A sound event, or now and then a damaged one.
fn draw_offer(run: &mut Run, talk: usize) -> Event {
    let event = draw_event(&mut run.draw, &run.day, talk);
    if run.draw.once_in(3) {
        return damage(&mut run.draw, &run.day, event);
    }
    event
}

// So many events are drawn and offered, while there are not too many vectors to try.
pub(crate) fn offer_drawn(run: &mut Run, most: usize, talk: usize) -> Result<(), AllocError> {
    for _ in 0..most {
        let event = draw_offer(run, talk);
        offer(run, event)?;
        if 1500 <= run.day.vectors() {
            break;
        }
    }
    Ok(())
}
