ghost use Rattle.std.specs.Prelude.{◌≡◌, ◌<◌, ℕ, List, IfOk};
ghost use Rattle.game_orders.specs.declared.order.Order.{Order};

use base::NoMemory;
use frame_core::Sim;
use game_orders::Orders;

/// Clients that play by a rule in worlds of this type.
pub trait Bots<S: Sim> {
    /// What a client orders in a world.
    ghost orders_of: { Self → S → ℕ → List Order };

    /// The orders of client `c`, below the world's number of clients, in a world. Out of memory is
    /// its one error.
    fn orders(&self, sim: &S, c: u8) -> Result<Orders, NoMemory>
        requires { c < S.clients_of sim.now }
        ensures { IfOk result (λ orders. orders ≡ orders_of self.now sim.now c) };
}
