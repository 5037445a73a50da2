ghost use Rattle.std.specs.Prelude.{◌≡◌, ◌<◌, ◌≤◌, ◌+◌, slice_index};
ghost use Rattle.std.specs.Bool.{OnTrue};
ghost use Rattle.game_model.specs.World.{clients_of};
ghost use Rattle.game_orders.specs.declared.order.Order.TheVariants.{Cancel, Donate, Pace, Produce};
ghost use Rattle.game_tick.specs.Orders.{can_receive, donation_fits, after_order};
ghost use Rattle.tick_core.specs.Ordered.{IsReady};

use crate::scene::Scene;
use game_model::{MAX_CASH, MAX_PACE};
use game_orders::Order;
use production::{cancel, produce};

impl Scene {
    /// Applies one order of a client, which has no effect where it does not fit.
    pub(crate) fn apply_order(&mut self, client: u8, order: &Order)
        requires client { client < clients_of self.old.world }
        requires ready { IsReady self.old.setup self.old.world self.old.world }
        ensures { self.new ≡ (record self.old {
          world = after_order self.old.setup self.old.world
              client order.now;
        }) }
    {
        match order {
            Order::Move {
                actor,
                cell,
                queued,
            } => self.order_move(client, *actor, *cell, *queued),
            Order::Attack {
                actor,
                target,
                queued,
            } => self.order_attack(client, *actor, *target, *queued),
            Order::Harvest {
                actor,
                cell,
                queued,
            } => self.order_harvest(client, *actor, *cell, *queued),
            Order::Stop { actor } => self.order_stop(client, *actor),
            Order::Produce { actor, kind } => self.order_produce(client, *actor, *kind),
            Order::Cancel { actor } => self.order_cancel(client, *actor),
            Order::Donate { to, amount } => self.donate(client, *to, *amount),
            Order::Pace { ticks } => self.set_pace(client, *ticks),
        }
    }

    /// A client's order to build a unit of a kind, given to the actor of an id.
    fn order_produce(&mut self, client: u8, id: u32, kind: u16)
        requires client { client < clients_of self.old.world }
        requires ready { IsReady self.old.setup self.old.world self.old.world }
        ensures { self.new ≡ (record self.old {
          world = after_order self.old.setup self.old.world
              client (Produce id kind);
        }) }
    {
        let head = &mut self.head;
        produce(
            &mut self.table,
            &mut head.cash,
            &self.rules,
            client,
            id,
            kind,
        );
    }

    /// A client's order to take back the last build of the actor of an id.
    fn order_cancel(&mut self, client: u8, id: u32)
        requires ready { IsReady self.old.setup self.old.world self.old.world }
        ensures { self.new ≡ (record self.old {
          world = after_order self.old.setup self.old.world
              client (Cancel id);
        }) }
    {
        let head = &mut self.head;
        cancel(&mut self.table, &mut head.cash, &self.rules, client, id);
    }

    /// Sets the pace of the frames that follow, where the host sets it within its limits.
    fn set_pace(&mut self, client: u8, ticks: u8)
        requires ready { IsReady self.old.setup self.old.world self.old.world }
        ensures { self.new ≡ (record self.old {
          world = after_order self.old.setup self.old.world
              client (Pace ticks);
        }) }
    {
        if client == 0 && (1..=MAX_PACE).contains(&ticks) {
            self.head.pace = ticks;
        }
    }

    /// Moves an amount of cash from a client to another, where the donation fits.
    fn donate(&mut self, client: u8, to: u8, amount: u32)
        requires client { client < clients_of self.old.world }
        requires ready { IsReady self.old.setup self.old.world self.old.world }
        ensures { self.new ≡ (record self.old {
          world = after_order self.old.setup self.old.world
              client (Donate to amount);
        }) }
    {
        if self.donation_fits(client, to, amount) {
            let left = self.head.cash.get(client) - amount;
            let lifted = self.head.cash.get(to) + amount;
            self.head.cash.set(client, left);
            self.head.cash.set(to, lifted);
        }
    }

    /// Whether a donation fits: the receiver can receive, the giver has the amount, and the
    /// receiver's cash with it is at most [`MAX_CASH`].
    fn donation_fits(&self, client: u8, to: u8, amount: u32) -> bool
        requires { client < clients_of self.now.world }
        ensures value { result ≡ donation_fits self.now.world client to amount }
        ensures receiver { OnTrue result (to < clients_of self.now.world) }
        ensures giver { OnTrue result (amount ≤ slice_index self.now.world.cash client) }
        ensures limit { OnTrue result (slice_index self.now.world.cash to + amount ≤ MAX_CASH) }
    {
        if !self.can_receive(client, to) {
            return false;
        }
        if self.head.cash.get(client) < amount {
            return false;
        }
        let lifted = u64::from(self.head.cash.get(to)) + u64::from(amount);
        lifted <= u64::from(MAX_CASH)
    }

    /// Whether `to` can receive a donation of `client`: it is another client of the match and has
    /// not departed.
    fn can_receive(&self, client: u8, to: u8) -> bool
        ensures value { result ≡ can_receive self.now.world client to }
        ensures receiver { OnTrue result (to < clients_of self.now.world) }
    {
        to < self.head.cash.clients() && to != client && !self.head.gone.get(to)
    }
}
