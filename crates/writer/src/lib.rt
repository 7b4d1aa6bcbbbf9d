// A store written as text, piece by piece: each piece is put together first, and copied where the output has room for it.
#![tactic(auto)]

mod writing;

ghost use Rattle.std.specs.Prelude.{◌≡◌};
ghost use Rattle.store.specs.Outcomes.{store_in};
ghost use Rattle.writer.specs.Writing.{writing, written};

use model::{PieceNumber, Refusal};
use store::{Trace, check};
use writing::piece_of;

// Writes one piece of the store's text to the front of an output, and gives its length.
pub fn write(trace: Trace, piece: PieceNumber, out: &mut [u8]) -> Result<usize, Refusal>
    ensures { written result out.new ≡ writing (store_in trace.entry) piece.0 out.old }
{
    check(trace)?;
    let at = piece.0 as usize;
    let last = trace.record.events as usize + 1;
    if last < at {
        return Err(Refusal::NoSuchPosition);
    }
    let text = piece_of(trace, piece);
    let length = text.len();
    if out.len() < length {
        return Err(Refusal::ShortOutput);
    }
    text.copy_out(out);
    Ok(length)
}
