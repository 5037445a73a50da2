ghost use Rattle.std.specs.Prelude.{◌≡◌, ◌+◌, ◌*◌, ◌<◌, ◌^◌, length};
ghost use Rattle.game_model.specs.World.{clients_of};
ghost use Rattle.game_tick.specs.Orders.{after_order, after_orders};
ghost use Rattle.tick_core.specs.Ordered.{IsReady, subject_of};
ghost use Rattle.game_tick.specs.Tick.{after_entry, after_turns, tick_of, with_orders};
ghost use Rattle.game_tick.specs.Departures.{with_departures};

use crate::live_world::LiveWorld;
use game_orders::{Entry, Frame, Order, Orders};

/// The actor to which an order is given, if it is given to one.
fn subject_of(order: &Order) -> Option<u32>
    ensures { result ≡ subject_of order.now }
{
    match order {
        Order::Move { actor, .. }
        | Order::Attack { actor, .. }
        | Order::Harvest { actor, .. }
        | Order::Stop { actor }
        | Order::Produce { actor, .. }
        | Order::Cancel { actor } => Some(*actor),
        Order::Donate { .. } | Order::Pace { .. } => None,
    }
}

impl LiveWorld {
    /// Ticks by a frame: departures, then the orders of the plays by rising client, then as many
    /// turns as the pace said before the frame.
    pub(crate) fn tick(&mut self, f: &Frame)
        requires whole { length f.now ≡ clients_of self.old.world }
        requires more { self.old.world.tick + self.old.world.pace < 2 ^ 32 }
        requires draws { self.old.world.drawn + 2 ^ 16 < 2 ^ 64 }
        requires ready { IsReady self.old.setup self.old.world self.old.world }
        ensures { self.new ≡ (record self.old {
          world = tick_of self.old.setup self.old.world f.now;
        }) }
    {
        let turns = self.scene.head.pace;
        self.let_depart(f);
        self.apply_plays(f);
        self.run_turns(turns);
    }

    /// The number of clients.
    pub(crate) fn clients(&self) -> u8
        ensures { result ≡ clients_of self.now.world }
    {
        let _hasher = &self.hasher;
        self.scene.clients()
    }

    /// Each client whose entry is a Leave becomes gone.
    fn let_depart(&mut self, f: &Frame)
        requires { length f.now ≡ clients_of self.old.world }
        ensures { self.new ≡ (record self.old { world = with_departures self.old.world f.now }) }
    {
        self.scene.let_depart(f);
    }

    /// Applies the orders of the plays by rising client.
    fn apply_plays(&mut self, f: &Frame)
        requires whole { length f.now ≡ clients_of self.old.world }
        requires ready { IsReady self.old.setup self.old.world self.old.world }
        ensures world { self.new ≡ (record self.old {
          world = with_orders self.old.setup
              self.old.world f.now;
        }) }
        ensures ready { IsReady self.old.setup self.old.world self.new.world }
    {
        for c in 0..self.clients() {
            if let Some(entry) = f.get(usize::from(c)) {
                self.apply_entry(c, entry);
            }
        }
    }

    /// Applies the orders of one client's entry.
    fn apply_entry(&mut self, client: u8, entry: &Entry)
        requires client { client < clients_of self.old.world }
        requires ready { IsReady self.old.setup self.old.world self.old.world }
        ensures { self.new ≡ (record self.old {
          world = after_entry self.old.setup self.old.world
              client entry.now;
        }) }
    {
        match entry {
            Entry::Play(orders) => self.apply_orders(client, orders),
            Entry::Leave => {}
        }
    }

    /// Applies the orders of a client, first to last.
    fn apply_orders(&mut self, client: u8, orders: &Orders)
        requires client { client < clients_of self.old.world }
        requires ready { IsReady self.old.setup self.old.world self.old.world }
        ensures { self.new ≡ (record self.old {
          world = after_orders self.old.setup self.old.world
              client orders.now;
        }) }
    {
        for i in 0..orders.len() {
            if let Some(order) = orders.get(i) {
                self.apply_order(client, order);
            }
        }
    }

    /// Applies one order of a client, and tells the hasher of the actor to which it is given.
    fn apply_order(&mut self, client: u8, order: &Order)
        requires client { client < clients_of self.old.world }
        requires ready { IsReady self.old.setup self.old.world self.old.world }
        ensures { self.new ≡ (record self.old {
          world = after_order self.old.setup self.old.world
              client order.now;
        }) }
    {
        self.scene.apply_order(client, order);
        let subject = subject_of(order);
        let _died = self
            .scene
            .update_hasher(&mut self.hasher, 0, subject, None, None);
    }

    /// Runs so many turns.
    fn run_turns(&mut self, turns: u8)
        requires tick { self.old.world.tick + turns < 2 ^ 32 }
        requires draws { self.old.world.drawn + 2 ^ 12 * turns < 2 ^ 64 }
        ensures { self.new ≡ (record self.old {
          world = after_turns self.old.setup turns
              self.old.world;
        }) }
    {
        for _turn in 0..turns {
            self.run_turn();
        }
    }
}
