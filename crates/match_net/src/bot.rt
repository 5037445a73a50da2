ghost use Rattle.match_net.specs.Plays.{own_orders};

use crate::order_source::OrderSource;
use base::NoMemory;
use bots::Bots;
use frame_core::Sim;
use game_orders::Orders;

/// A player that plays so many frames by a rule, each by the world that it holds when it seals the
/// frame. It keeps nothing of its own from one frame to the next.
#[derive(Drop)]
pub struct Bot<'a, B> {
    /// The rule.
    pub rule: &'a B,
    /// How many frames it plays.
    pub frames: u32,
}

impl<'a, S: Sim, B: Bots<S>> OrderSource<S> for Bot<'a, B> {
    ghost frames_of = { λ bot. bot.frames };

    ghost orders_of = { λ bot world client n.
        own_orders S.clients_of (B.orders_of bot.rule.now) world client };

    fn frames(&self) -> usize {
        self.frames as usize
    }

    fn orders(&self, sim: &S, c: u8, _n: usize) -> Result<Orders, NoMemory> {
        if c < sim.clients() {
            self.rule.orders(sim, c)
        } else {
            Ok(Orders::empty())
        }
    }
}
