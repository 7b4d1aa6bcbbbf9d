// The listing through a lent place, called as one by value: it lends a place of its own and gives it back, refused or not, and
// promises what `list` does.
ghost use Rattle.std.specs.Prelude.{◌≡◌};
ghost use Rattle.store.specs.Outcomes.{store_in};
ghost use Rattle.cuts.specs.Listing.{listing, moved};

use cuts::{Moved, list_moving};
use model::{Place, Position, Refusal};
use store::Trace;

// It also gives the place back, so it is no conversion.
pub(crate) fn list_by_moving(
    trace: Trace,
    position: Position,
    place: Place,
    out: &mut [u8],
) -> (Result<Moved, Refusal>, Place)
    ensures { moved result.0 result.1 out.new ≡ listing (store_in trace.entry) position.0 place out.old }
{
    let mut at = place;
    let moved = list_moving(trace, position, &mut at, out);
    (moved, at)
}
