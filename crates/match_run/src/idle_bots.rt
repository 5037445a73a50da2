use base::NoMemory;
use bots::Bots;
use frame_core::Sim;
use game_orders::Orders;

/// No bots, or bots that never order anything.
#[derive(Drop)]
pub struct IdleBots;

impl<S: Sim> Bots<S> for IdleBots {
    ghost use Rattle.std.specs.Prelude.{[]};

    ghost orders_of = { λ bots sim c. [] };

    fn orders(&self, _sim: &S, _c: u8) -> Result<Orders, NoMemory> {
        Ok(Orders::empty())
    }
}
