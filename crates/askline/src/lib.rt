// The ask line, the first that `cutcheck` reads: one of three questions, put to the whole trace that follows.
#![tactic(auto)]

mod sets;

ghost use Rattle.std.specs.Prelude.{◌≡◌};
ghost use Rattle.askline.specs.Ask.{ask_line, exactly_form, all_form};

use lines::find::{line_length, value};
use lines::numbers::read_number;
use model::Question;
use sets::read_set;

const AT_LEAST: [u8; 12] = *b"ask=atleast,";

const EXACTLY: [u8; 12] = *b"ask=exactly,";

const ALL: [u8; 8] = *b"ask=all,";

#[tactic(auto, unfolding(crate::specs::Ask::all_form))]
fn read_all(line: &[u8]) -> Option<Question>
    ensures { result ≡ all_form line.now }
{
    read_set(value(line, &ALL)).map(Question::All)
}

#[tactic(auto, unfolding(crate::specs::Ask::exactly_form))]
fn read_exactly(line: &[u8]) -> Option<Question>
    ensures { result ≡ exactly_form line.now }
{
    read_number(value(line, &EXACTLY), u32::MAX)
        .map(Question::Exactly)
        .or_else(|| read_all(line))
}

// The question in the input's first line, where it asks one.
#[tactic(auto, using(lines::proofs::Parts::line_lent), unfolding(crate::specs::Ask::ask_line, crate::specs::Ask::ask_of))]
pub fn read_ask(input: &[u8]) -> Option<Question>
    ensures { result ≡ ask_line input.now }
{
    let line = &input[..line_length(input)];
    read_number(value(line, &AT_LEAST), u32::MAX)
        .map(Question::AtLeast)
        .or_else(|| read_exactly(line))
}
