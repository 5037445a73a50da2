ghost use Rattle.std.specs.Prelude.{◌≡◌};
ghost use Rattle.game_orders.specs.Order.{fields_of};

use world_units::CPos;

/// What a client orders the game to do in one frame. An order that doesn't fit has no effect.
#[derive(Clone, Copy, Debug)]
pub enum Order {
    /// An actor is to move to a cell.
    Move {
        /// The actor's id.
        actor: u32,
        /// Where it is to go.
        cell: CPos,
        /// Whether it comes after what the actor has to do, or in place of that.
        queued: bool,
    },
    /// An actor is to attack another.
    Attack {
        /// The actor's id.
        actor: u32,
        /// The id of the actor that it is to attack.
        target: u32,
        /// Whether it comes after what the actor has to do, or in place of that.
        queued: bool,
    },
    /// An actor is to harvest ore, at a cell first.
    Harvest {
        /// The actor's id.
        actor: u32,
        /// Where it is to begin.
        cell: CPos,
        /// Whether it comes after what the actor has to do, or in place of that.
        queued: bool,
    },
    /// An actor is to do nothing more.
    Stop {
        /// The actor's id.
        actor: u32,
    },
    /// An actor is to produce an actor of a kind.
    Produce {
        /// The id of the actor that produces.
        actor: u32,
        /// The number of the kind, from 0.
        kind: u16,
    },
    /// An actor is to give up the last thing that it is to produce.
    Cancel {
        /// The actor's id.
        actor: u32,
    },
    /// Gives cash to another client.
    Donate {
        /// The number of the client that receives, which need not be one of the match.
        to: u8,
        /// The cash that moves.
        amount: u32,
    },
    /// Sets how many turns each later frame runs.
    Pace {
        /// The turns a frame.
        ticks: u8,
    },
}

impl Order {
    /// The number of the variant, then its fields in order, and 0 for each field that it has not.
    fn fields(&self) -> [u32; 5]
        ensures { result ≡ fields_of self.now }
    {
        match *self {
            Order::Move {
                actor,
                cell,
                queued,
            } => [
                1,
                actor,
                u32::from(cell.x),
                u32::from(cell.y),
                u32::from(queued),
            ],
            Order::Attack {
                actor,
                target,
                queued,
            } => [2, actor, target, u32::from(queued), 0],
            Order::Harvest {
                actor,
                cell,
                queued,
            } => [
                3,
                actor,
                u32::from(cell.x),
                u32::from(cell.y),
                u32::from(queued),
            ],
            Order::Stop { actor } => [4, actor, 0, 0, 0],
            Order::Produce { actor, kind } => [5, actor, u32::from(kind), 0, 0],
            Order::Cancel { actor } => [6, actor, 0, 0, 0],
            Order::Donate { to, amount } => [7, u32::from(to), amount, 0, 0],
            Order::Pace { ticks } => [8, u32::from(ticks), 0, 0, 0],
        }
    }
}

impl PartialEq for Order {
    ghost use Rattle.game_orders.specs.Order.{same_order};
    ghost use Rattle.game_orders.specs.OrderEquality.{order_decides};
    ghost use Rattle.std.specs.Cmp.{decided, partial_equiv_from_equiv};

    ghost eq = { same_order };

    ghost laws = { partial_equiv_from_equiv (decided same_order order_decides) };

    fn eq(&self, other: &Order) -> bool {
        self.fields() == other.fields()
    }
}

impl Eq for Order {
    ghost use Rattle.game_orders.specs.Order.{same_order};
    ghost use Rattle.game_orders.specs.OrderEquality.{order_decides};
    ghost use Rattle.std.specs.Cmp.{decided};

    ghost laws = { decided same_order order_decides };
}

/// An order without effect, which fills the unused room of a list.
impl Default for Order {
    ghost use Rattle.std.specs.Prelude.{◌≡◌};
    ghost use Rattle.game_orders.specs.declared.order.Order.TheVariants.{Donate};

    ghost is_default = { λ o. o ≡ Donate 0 0 };

    fn default() -> Self {
        Order::Donate { to: 0, amount: 0 }
    }
}
