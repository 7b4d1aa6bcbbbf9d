// A refusal as it is printed: its number and line, and nothing else.
ghost use Rattle.std.specs.Prelude.{◌≡◌, ◌≤◌, length};
ghost use Rattle.model.specs.Refusals.{number_of};
ghost use Rattle.pieces.specs.Pieces.{piece_room};
ghost use Rattle.report.specs.Report.{written, refused_shown};

use crate::Refused;
use pieces::empty_piece;

const REFUSED: [u8; 8] = *b"refused=";

// Gives how many bytes the line has. Not by `fmt::Write`: see `Piece`.
#[tactic(auto, using(crate::proofs::Showing::pair_most))]
pub(crate) fn write_refusal(refused: Refused, out: &mut [u8]) -> usize
    requires { piece_room ≤ length out.old }
    ensures { written (number_of refused.why) refused.line result out.new ≡ refused_shown (number_of refused.why) refused.line out.old }
{
    let number = u8::from(refused.why);
    let mut line = empty_piece();
    line.put_pair(&REFUSED, number as u64, refused.line as u64);
    line.copy_out(out);
    line.len()
}
