// Counting, listing and the whole report for programs in other languages: calls of `cuts` and `report` under names and with
// parameters that C and Rust can declare, so numbers and buffers one by one, and 0 for a refusal.
#![tactic(auto)]

ghost use Rattle.std.specs.Prelude.{◌≡◌};
ghost use Rattle.store.specs.Outcomes.{store_in};
ghost use Rattle.cuts.specs.Outcomes.{counting};
ghost use Rattle.cuts.specs.Listing.{listing, fresh};
ghost use Rattle.report.specs.Report.{reporting};
ghost use Rattle.exports.specs.Calls.{store_from, sent, sent_of};

use model::{Cut, Place, Position, Record};
use store::{Buffers, Trace};

// What a caller lends, as a trace. The calls below test it.
fn trace_from<'a>(
    tablets: u8,
    events: u16,
    clocks: &'a [u8],
    held: &'a [u16],
    order: &'a [u8],
) -> Trace<'a>
    ensures { store_in result ≡ store_from tablets events clocks.now held.now order.now }
{
    let record = Record { tablets, events };
    Trace {
        record,
        clocks,
        held,
        order,
    }
}

// How many cuts an interval has; 0 on a refusal.
#[unsafe(no_mangle)]
pub extern "C" fn chongyeori_count(
    tablets: u8,
    events: u16,
    clocks: &[u8],
    held: &[u16],
    order: &[u8],
    position: u16,
) -> u64
    ensures { result ≡ (counting (store_from tablets events clocks.now held.now order.now) position).count }
{
    let trace = trace_from(tablets, events, clocks, held, order);
    cuts::count(trace, Position(position)).unwrap_or(0)
}

// Writes the first cuts of an interval, as many as fit, and gives their number, or 0 on a refusal.
#[unsafe(no_mangle)]
pub extern "C" fn chongyeori_list(
    tablets: u8,
    events: u16,
    clocks: &[u8],
    held: &[u16],
    order: &[u8],
    position: u16,
    out: &mut [u8],
) -> u64
    ensures value { result ≡ (listing (store_from tablets events clocks.now held.now order.now) position fresh out.old).count }
    ensures out_after { out.new ≡ (listing (store_from tablets events clocks.now held.now order.now) position fresh out.old).output }
{
    let trace = trace_from(tablets, events, clocks, held, order);
    let fresh = Place {
        begun: false,
        cut: Cut { counts: [0; 8] },
    };
    cuts::list(trace, Position(position), fresh, out).map_or(0, |listed| listed.written as u64)
}

// Puts what `cutcheck` prints to the front of an output, and gives how many bytes that is.
#[unsafe(no_mangle)]
pub extern "C" fn chongyeori_report(
    input: &[u8],
    clocks: &mut [u8],
    held: &mut [u16],
    order: &mut [u8],
    out: &mut [u8],
) -> usize
    ensures { sent result out.new clocks.new held.new order.new ≡ sent_of (reporting input.now clocks.old held.old order.old out.old) }
{
    let mut buffers = Buffers {
        clocks,
        held,
        order,
    };
    report::make_report(input, &mut buffers, out).length
}
