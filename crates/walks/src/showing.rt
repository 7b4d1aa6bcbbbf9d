// Writing the cuts of a range into a lent output, from one of them on.
ghost use Rattle.std.specs.Prelude.{◌≡◌, ◌≤◌, length};
ghost use Rattle.steps.specs.Walked.{Standing, cuts_of};
ghost use Rattle.walks.specs.Showing.{from_cut, place_behind, ShownOf};

use model::{Cut, Place};
use steps::walk::Walk;
use store::inner::write_eight;

// What was written: how many cuts, the place behind the last of them, and whether more stand behind it.
// A flag for "more": what is written and the place are there in both cases.
#[derive(Clone, Copy)]
pub struct Listed {
    pub written: usize,
    pub place: Place,
    pub more: bool,
}

// As many cuts as there are and fit. The step from the last that fits tells whether more stand behind it.
pub fn show(walk: &Walk, first: Cut, out: &mut [u8]) -> Listed
    requires { Standing walk.now first.counts × (8 ≤ length out.old) }
    ensures { ShownOf (from_cut (cuts_of walk.now) first.counts) out.old result.written result.place result.more out.new }
{
    let room = out.len() / 8;
    let mut counts = first.counts;
    let mut place = behind(counts);
    // A for over the index: it leaves early with what was written.
    for shown in 0..room {
        write_eight(out, 8 * shown, counts);
        place = behind(counts);
        if !walk.next_cut(&mut counts) {
            return Listed {
                written: shown + 1,
                place,
                more: false,
            };
        }
    }
    Listed {
        written: room,
        place,
        more: true,
    }
}

// The place behind a cut.
// No conversion: built by rule 30.
fn behind(counts: [u8; 8]) -> Place
    ensures { result ≡ place_behind counts }
{
    Place {
        begun: true,
        cut: Cut { counts },
    }
}
