// What is seen of an input before its trace is read: its length and its ask line.
ghost use Rattle.std.specs.Prelude.{◌≡◌};
ghost use Rattle.report.specs.Report.{looking};

use askline::read_ask;
use model::{Question, Refusal};

#[tactic(auto, unfolding(crate::specs::Report::looking))]
pub(crate) fn look_at(input: &[u8]) -> Result<Question, Refusal>
    ensures { result ≡ looking input.now }
{
    if 65536 < input.len() {
        return Err(Refusal::InputTooLong);
    }
    read_ask(input).ok_or(Refusal::FaultyLine)
}
