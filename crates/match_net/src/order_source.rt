ghost use Rattle.std.specs.Prelude.{◌≡◌, ◌<◌, ℕ, List, IfOk};
ghost use Rattle.game_orders.specs.declared.order.Order.{Order};

use base::NoMemory;
use frame_core::Sim;
use game_orders::Orders;

/// Where the orders of a player come from, over worlds of this type.
pub trait OrderSource<S: Sim> {
    /// How many frames it plays.
    ghost frames_of: { Self → ℕ };

    /// What it orders in a world, for a client, for a frame.
    ghost orders_of: { Self → S → ℕ → ℕ → List Order };

    /// How many frames it plays: those from 0 on.
    fn frames(&self) -> usize
        ensures { result ≡ frames_of self.now };

    /// The orders of client `c` for frame `n`, one of its frames, by the world that the client
    /// holds when it seals that frame. Out of memory is its one error.
    fn orders(&self, sim: &S, c: u8, n: usize) -> Result<Orders, NoMemory>
        requires { n < frames_of self.now }
        ensures { IfOk result (λ orders. orders ≡ orders_of self.now sim.now c n) };
}
