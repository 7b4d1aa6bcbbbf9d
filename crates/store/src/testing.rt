// The store test: one pass over the order list that stops at the first fault.
ghost use Rattle.std.specs.Prelude.{◌≡◌, cond, not, ◌≤◌, length, IfOk};
ghost use Rattle.model.specs.Refusals.{verdict_number};
ghost use Rattle.model.specs.Store.{full_sizes, record_refusal};
ghost use Rattle.store.specs.Outcomes.{store_in};
ghost use Rattle.store.specs.Testing.{Followed, StoreTested};

use crate::Trace;
use model::{Record, Refusal, Tablet};
use rules::clocks::Clocks;
use rules::follow::Past;

// The tallies after the events, where each of them may follow the ones before it.
fn follow_all(record: Record, clocks: Clocks, order: &[u8]) -> Option<[u8; 8]>
    requires { («record».tablets ≤ 8) × («record».events ≤ length order.now) }
    ensures { Followed «record».tablets clocks.entry.bytes.now order.now «record».events result }
{
    let mut tallies = [0u8; 8];
    for byte in &order[..record.events as usize] {
        let past = Past {
            tablets: record.tablets,
            clocks,
            tallies: &tallies,
        };
        past.stored_verdict(Tablet(*byte)).ok()?;
        tallies[(*byte - 1) as usize] += 1;
    }
    Some(tallies)
}

// What is tested of a record alone, in the order of the refusals.
#[tactic(auto, unfolding(model::specs::Store::record_refusal))]
pub(crate) fn record_verdict(record: Record) -> Result<(), Refusal>
    ensures { verdict_number result ≡ record_refusal «record» }
{
    let n = record.tablets;
    if n == 0 {
        return Err(Refusal::NoSuchTabletCount);
    }
    if 8 < n {
        return Err(Refusal::NoSuchTabletCount);
    }
    Ok(())
}

fn size_verdict(trace: Trace) -> Result<(), Refusal>
    ensures { verdict_number result ≡ cond (not (full_sizes trace.entry.clocks.now trace.entry.held.now trace.entry.order.now)) 2 0 }
{
    if trace.clocks.len() < 16256 || trace.held.len() < 2032 || trace.order.len() < 2032 {
        return Err(Refusal::ShortBuffer);
    }
    Ok(())
}

// The tallies of a store that passes every test, or the first refusal that applies.
pub(crate) fn test_store(trace: Trace) -> Result<[u8; 8], Refusal>
    ensures { StoreTested (store_in trace.entry) result }
{
    let record = trace.record;
    record_verdict(record).and(size_verdict(trace))?;
    if 2032 < record.events {
        return Err(Refusal::InvalidStore);
    }
    let clocks = Clocks {
        bytes: trace.clocks,
    };
    follow_all(record, clocks, trace.order).ok_or(Refusal::InvalidStore)
}
