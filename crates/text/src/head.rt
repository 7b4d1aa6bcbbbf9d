// The head of a text: the `tablets` line, at the text's front.
ghost use Rattle.std.specs.Prelude.{◌≡◌, ◌<◌, OnOk, length};
ghost use Rattle.store.specs.Outcomes.{opened};
ghost use Rattle.lines.specs.Find.{line_length};
ghost use Rattle.text.specs.Steps.{heading, HeadRead};

use crate::standing::{Next, Step};
use lines::find::line_length;
use loglines::keys::{TABLETS, number_line};
use model::{Record, Refusal};
use store::inner::no_record;

// The record that the line opens.
fn read_head(text: &[u8]) -> Result<Record, Refusal>
    ensures says { opened result ≡ heading text.now }
    ensures ended { OnOk result (line_length text.now < length text.now) }
{
    let tablets = number_line(text, &TABLETS, 255).ok_or(Refusal::FaultyLine)?;
    store::open(tablets as u8)
}

// The first turn: a fresh record, with the reader behind the line, or a refusal at it.
#[tactic(auto, using(crate::proofs::Steps::head_stays))]
pub(crate) fn head_turn(text: &[u8]) -> Step
    ensures { HeadRead text.now result }
{
    match read_head(text) {
        Ok(record) => Step {
            bytes: line_length(text) + 1,
            lines: 1,
            record,
            next: Next::More([0u8; 8]),
        },
        Err(why) => Step {
            bytes: 0,
            lines: 0,
            record: no_record(),
            next: Next::Refused(why),
        },
    }
}
