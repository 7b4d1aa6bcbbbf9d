// A fixed rule in place of chance, so that each run tries the same.
ghost use Rattle.std.specs.Prelude.{◌≡◌, ℕ, ◌-◌, ◌≤◌, ◌↔◌, IsTrue};
ghost use Rattle.trials.specs.Draws.{next_state, drawn};

use std::marker::Model;

const MODULUS: u64 = 2147483647;

// Numbers by linear congruence: a state x is followed by FACTOR x mod 2^31 - 1.
#[derive(Drop)]
pub struct Draw<const FACTOR: u32> {
    state: u64,
}

impl<const FACTOR: u32> Model for Draw<FACTOR> {
    ghost Value = { ℕ };

    ghost view = { λ d. d.state };
}

impl<const FACTOR: u32> Draw<FACTOR> {
    pub fn new(seed: u64) -> Self
        ensures { result ≡ seed }
    {
        Draw { state: seed }
    }

    // A number below `bound`, and 0 where there is none: no Option, as the callers count with it.
    pub fn below(&mut self, bound: usize) -> usize
        ensures next { self.new ≡ next_state FACTOR self.old }
        ensures drawn { result ≡ drawn bound self.new }
        ensures inside { result ≤ bound - 1 }
    {
        self.state = self.state % MODULUS * u64::from(FACTOR) % MODULUS;
        if bound == 0 {
            return 0;
        }
        (self.state / 16) as usize % bound
    }

    // Now and then: once in so many times.
    pub fn once_in(&mut self, times: usize) -> bool
        ensures next { self.new ≡ next_state FACTOR self.old }
        ensures drawn { IsTrue result ↔ (drawn times self.new ≡ 0) }
    {
        self.below(times) == 0
    }

    // A column of so many tablets.
    pub fn column(&mut self, tablets: u8) -> usize
        ensures next { self.new ≡ next_state FACTOR self.old }
        ensures drawn { result ≡ drawn tablets self.new }
        ensures inside { result ≤ tablets - 1 }
    {
        self.below(usize::from(tablets))
    }
}
