ghost use Rattle.std.specs.Prelude.{◌≡◌};

use base::NoMemory;
use bots::Bots;
use frame_core::{Maker, Sim, Summary};
use game_orders::{Frame, Order, Orders, PerClient};
use std::alloc::Global;

/// A world that counts its steps. That is its hash too.
#[derive(Drop)]
pub struct Steps {
    cash: PerClient<u32>,
    steps: u32,
}

impl Sim for Steps {
    ghost use Rattle.std.specs.Prelude.{◌+◌, length};

    ghost clients_of = { λ w. length w.cash };

    ghost steps = { λ w. w.steps };

    ghost after = { λ w frame. record { cash = w.cash; steps = w.steps + 1 } };

    ghost hash_of = { λ w. w.steps };

    ghost summary_of = { λ w. record { actors = 0; cash = w.cash } };

    fn clients(&self) -> u8 {
        self.cash.clients()
    }

    fn step(&mut self, _frame: &Frame) {
        self.steps += 1;
    }

    fn hash(&self) -> u64 {
        u64::from(self.steps)
    }

    fn summary(&self) -> Summary {
        Summary {
            actors: 0,
            cash: self.cash.copy(),
        }
    }
}

/// Makes such worlds.
pub struct StepsMaker;

impl Maker for StepsMaker {
    ghost use Rattle.std.specs.Prelude.{replicate};

    type World = Steps;

    ghost made = { λ maker seed clients. record { cash = replicate clients 0; steps = 0 } };

    fn make(&self, _alloc: Global, _seed: u32, clients: u8) -> Result<Steps, NoMemory> {
        Ok(Steps {
            cash: PerClient::create(clients, 0),
            steps: 0,
        })
    }
}

/// A rule of such worlds: a client gives itself as much as was counted.
pub struct StepsRule;

impl Bots<Steps> for StepsRule {
    ghost use Rattle.std.specs.Prelude.{[], ◌∷◌};
    ghost use Rattle.game_orders.specs.declared.order.Order.TheVariants.{Donate};

    ghost orders_of = { λ rule w c. Donate c w.steps ∷ [] };

    fn orders(&self, sim: &Steps, c: u8) -> Result<Orders, NoMemory> {
        let mut orders = Orders::empty();
        orders.push(Order::Donate {
            to: c,
            amount: sim.steps,
        });
        Ok(orders)
    }
}
