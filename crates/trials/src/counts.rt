// Counters, so that a run that compares nothing shows.
ghost use Rattle.std.specs.Prelude.{◌≡◌, ℕ, List, replicate, slice_index_or};
ghost use Rattle.trials.specs.Counters.{counted};

use std::marker::Model;

// N counters. They stay at the most that they can hold.
#[derive(Drop)]
pub struct Counts<const N: usize> {
    counts: [u64; N],
}

impl<const N: usize> Model for Counts<N> {
    ghost Value = { List ℕ };

    ghost view = { λ c. c.counts };
}

impl<const N: usize> Counts<N> {
    pub fn new() -> Self
        ensures { result ≡ replicate N 0 }
    {
        Counts { counts: [0; N] }
    }

    // Counts one more at an index; nothing where there is no such counter.
    pub fn add(&mut self, index: usize)
        ensures { self.new ≡ counted self.old index }
    {
        if index < N {
            self.counts[index] = self.counts[index].saturating_add(1);
        }
    }

    // The counter at an index; 0 where there is none: no Option, as the callers print it.
    pub fn at(&self, index: usize) -> u64
        ensures { result ≡ slice_index_or self.now index 0 }
    {
        self.counts.get(index).copied().unwrap_or(0)
    }
}
