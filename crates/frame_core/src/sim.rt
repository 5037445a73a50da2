ghost use Rattle.std.specs.Prelude.{◌≡◌, ◌+◌, ◌<◌, ◌≤◌, ℕ, List, length};

use crate::summary::Summary;
use game_orders::{Frame, MAX_CLIENTS};

/// The greatest number of steps of one world.
pub const MAX_STEPS: u32 = 536_870_911;

/// A world that is stepped by frames. What each call answers is a function of the world, and of the
/// frame for a step: `after`, `hash_of` and `summary_of` name these functions.
pub trait Sim: Drop {
    ghost use Rattle.game_orders.specs.declared.entry.Entry.{Entry};
    ghost use Rattle.frame_core.specs.declared.summary.Summary.{Summary};

    /// The number of clients.
    ghost clients_of: { Self → ℕ };

    /// The number of steps so far.
    ghost steps: { Self → ℕ };

    /// The world after one step by this frame.
    ghost after: { Self → List Entry → Self };

    /// The world's hash.
    ghost hash_of: { Self → ℕ };

    /// The world's summary.
    ghost summary_of: { Self → Summary };

    /// The number of clients, 1 to `MAX_CLIENTS`.
    fn clients(&self) -> u8
        ensures value { result ≡ clients_of self.now }
        ensures least { 1 ≤ result }
        ensures most { result ≤ MAX_CLIENTS };

    /// Steps the world by a frame with one entry for each client, after fewer than [`MAX_STEPS`]
    /// steps so far. It refuses nothing.
    fn step(&mut self, f: &Frame)
        requires whole { length f.now ≡ clients_of self.old }
        requires more { steps self.old < MAX_STEPS }
        ensures world { self.new ≡ after self.old f.now }
        ensures clients { clients_of self.new ≡ clients_of self.old }
        ensures counted { steps self.new ≡ steps self.old + 1 };

    /// The world's hash, a 64-bit number.
    fn hash(&self) -> u64
        ensures { result ≡ hash_of self.now };

    /// The world's summary. It has the cash of each client.
    fn summary(&self) -> Summary
        ensures value { result ≡ summary_of self.now }
        ensures cash { length result.cash ≡ clients_of self.now };
}
