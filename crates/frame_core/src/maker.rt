ghost use Rattle.std.specs.Prelude.{◌≡◌, ◌≤◌, ℕ, IfOk};

use crate::sim::Sim;
use base::NoMemory;
use game_orders::MAX_CLIENTS;
use std::alloc::Global;

/// Makes the opening world of a match: always the same one for equal arguments.
pub trait Maker {
    /// The worlds that it makes.
    type World: Sim;

    /// The opening world of this seed and number of clients.
    ghost made: { Self → ℕ → ℕ → Self.World };

    /// Makes a world of any seed and 1 to `MAX_CLIENTS` clients, which has made no step. It fails
    /// only where it is out of memory.
    fn make(&self, alloc: Global, seed: u32, clients: u8) -> Result<Self::World, NoMemory>
        requires least { 1 ≤ clients }
        requires most { clients ≤ MAX_CLIENTS }
        ensures world { IfOk result (λ w. w ≡ made self.now seed clients) }
        ensures clients { IfOk result (λ w. Self.World.clients_of w ≡ clients) }
        ensures fresh { IfOk result (λ w. Self.World.steps w ≡ 0) };
}
