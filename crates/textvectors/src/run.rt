// What a run keeps from one trial to the next: where its texts are kept, the rule that draws, and the notes of what was compared.
use crate::notes::Notes;
use std::alloc::Global;

// The rule that draws: 16807 x mod 2^31 - 1.
pub(crate) type Draw = trials::Draw<16807>;

// The other program has its own: see docs/DECISIONS.md, "There are two such programs".
#[derive(Drop)]
pub(crate) struct Run {
    pub alloc: Global,
    pub draw: Draw,
    pub notes: Notes,
}

impl Run {
    pub(crate) fn new(rt: HostRuntime, seed: u64) -> Run {
        Run {
            alloc: rt.alloc(),
            draw: Draw::new(seed),
            notes: Notes::new(rt),
        }
    }
}
