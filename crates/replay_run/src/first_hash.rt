ghost use Rattle.std.specs.Prelude.{◌≡◌, ℕ};

use frame_core::{Sim, Tally};

/// A world that also has the hash of the first version, which marks in replays of that version
/// have.
pub trait FirstHash: Sim {
    /// The world's hash of the first version.
    ghost first_hash_of: { Self → ℕ };

    /// The world's hash of the first version, a 64-bit number.
    fn first_hash(&self) -> u64
        ensures { result ≡ first_hash_of self.now };
}

/// The hash of the first version of the least world is the number of its steps.
impl FirstHash for Tally {
    ghost first_hash_of = { λ w. w.steps };

    fn first_hash(&self) -> u64 {
        u64::from(self.step_count())
    }
}
