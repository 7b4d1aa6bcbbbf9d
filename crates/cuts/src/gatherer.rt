// Gathering: interval after interval, each listed into the part of the output behind the cuts already written.
ghost use Rattle.std.specs.Prelude.{◌≡◌, List, ℕ, ◌-◌};
ghost use Rattle.cuts.specs.Gathering.{gathered, gathered_from, gather_in, GatherReady};
ghost use Rattle.cuts.specs.Ranges.{with_held};

use crate::Gathered;
use crate::lister::list_interval;
use crate::sound::Sound;
use model::{Cut, Place, Position, Refusal};

// The output has room for a cut whenever an interval is listed. A listing that says "more" has left no such room, so what it
// says is looked at in the last interval alone.
fn gather_from(
    trace: Sound,
    first: Position,
    last: Position,
    out: &mut [u8],
) -> Result<Gathered, Refusal>
    requires { GatherReady trace.record.events first.0 last.0 out.old }
    ensures { (held : List ℕ) → gathered result out.new ≡ gathered_from (with_held trace.entry held) first.0 (last.0 - first.0) out.old }
{
    let start = Place {
        begun: false,
        cut: Cut { counts: [0; 8] },
    };
    let mut written = 0;
    // A for over the index: it leaves early with what was written.
    for p in first.0..last.0 {
        let position = Position(p);
        let part = list_interval(trace, position, start, &mut out[8 * written..])?;
        written += part.written;
        if out.len() - 8 * written < 8 {
            return Ok(Gathered {
                written,
                more: true,
                position,
                place: part.place,
            });
        }
    }
    let part = list_interval(trace, last, start, &mut out[8 * written..])?;
    Ok(Gathered {
        written: written + part.written,
        more: part.more,
        position: last,
        place: part.place,
    })
}

pub(crate) fn gather_intervals(
    trace: Sound,
    first: Position,
    last: Position,
    out: &mut [u8],
) -> Result<Gathered, Refusal>
    ensures { (held : List ℕ) → gathered result out.new ≡ gather_in (with_held trace.entry held) first.0 last.0 out.old }
{
    if trace.record.events < last.0 || last.0 < first.0 {
        return Err(Refusal::NoSuchPosition);
    }
    if out.len() < 8 {
        return Err(Refusal::ShortOutput);
    }
    gather_from(trace, first, last, out)
}
