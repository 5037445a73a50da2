ghost use Rattle.std.specs.Prelude.{◌≡◌, ◌+◌, ◌-◌, ◌^◌, ◌≤◌, min};
ghost use Rattle.base.specs.Cause.{Increased};

use std::marker::Model;

/// How often an object of the outside has failed. It never falls, and stays at the greatest `u64`.
#[derive(Drop)]
pub struct FaultCount {
    count: u64,
}

impl Model for FaultCount {
    ghost use Rattle.std.specs.Prelude.{ℕ, ◌<◌, ◌^◌};

    ghost Value = { ℕ };

    ghost view = { λ faults. faults.count };

    ghost invariant = { λ faults. faults.count < 2 ^ 64 };
}

impl FaultCount {
    /// No fault yet.
    pub fn new() -> Self
        ensures { result ≡ 0 }
    {
        FaultCount { count: 0 }
    }

    /// The number of faults so far.
    pub fn get(&self) -> u64
        ensures { result ≡ self.now }
    {
        self.count
    }

    /// Counts one more fault.
    pub fn raise(&mut self)
        ensures next { self.new ≡ min (self.old + 1) (2 ^ 64 - 1) }
        ensures rose { Increased self.old self.new }
        ensures later { self.old ≤ self.new }
    {
        self.count = self.count.saturating_add(1);
    }
}
