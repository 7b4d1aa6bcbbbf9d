// Writing the cuts that stand behind a place into a lent output.
ghost use Rattle.std.specs.Prelude.{◌≡◌, ◌&&◌, List, ℕ, ◌≤◌, length};
ghost use Rattle.model.specs.Clocks.{covered};
ghost use Rattle.model.specs.Cuts.{consistent};
ghost use Rattle.steps.specs.Walked.{cuts_of, walk_clocks};
ghost use Rattle.cuts.specs.Listing.{listed, list_of, list_in};
ghost use Rattle.cuts.specs.Ranges.{with_held};

use crate::sound::Sound;
use model::{Cut, Place, Position, Refusal};
use steps::walk::Walk;
use walks::showing::{Listed, show};

fn list_walk(walk: &Walk, place: Place, out: &mut [u8]) -> Result<Listed, Refusal>
    requires { 8 ≤ length out.old }
    ensures { listed place result out.new ≡ list_of (cuts_of walk.now) (covered walk.now.low.counts place.cut.counts && consistent (walk_clocks walk.now) walk.now.high.counts place.cut.counts) place out.old }
{
    if !place.begun {
        return Ok(show(walk, walk.low, out));
    }
    if !walk.in_span(place.cut) {
        return Err(Refusal::PlaceOutside);
    }
    let mut counts = place.cut.counts;
    if !walk.next_cut(&mut counts) {
        return Ok(Listed {
            written: 0,
            place,
            more: false,
        });
    }
    Ok(show(walk, Cut { counts }, out))
}

#[tactic(auto, using(crate::proofs::Listings::list_within))]
pub(crate) fn list_interval(
    trace: Sound,
    position: Position,
    place: Place,
    out: &mut [u8],
) -> Result<Listed, Refusal>
    ensures { (held : List ℕ) → listed place result out.new ≡ list_in (with_held trace.entry held) position.0 place out.old }
{
    let walk = trace.interval(position).ok_or(Refusal::NoSuchPosition)?;
    if out.len() < 8 {
        return Err(Refusal::ShortOutput);
    }
    list_walk(&walk, place, out)
}
