ghost use Rattle.std.specs.Prelude.{◌≡◌};
ghost use Rattle.bot_player.specs.Drafts.{aim_at, is_attack, nearer_aim, ordered, seeing};

use crate::survey::Enemy;
use game_orders::Order;
use world_units::{CPos, dist_sq};

/// An enemy, as it is seen from the cell of an attacker.
#[derive(Clone, Copy, Debug, Drop)]
pub(crate) struct Aim {
    /// The squared distance of the cells, in square units.
    pub(crate) far: u64,
    /// The enemy's id.
    pub(crate) id: u32,
}

impl Aim {
    /// The enemy, seen from a cell.
    pub(crate) fn at(from: CPos, enemy: Enemy) -> Aim
        ensures { result ≡ aim_at from enemy }
    {
        Aim {
            far: dist_sq(from, enemy.cell),
            id: enemy.id,
        }
    }

    /// The nearer of the two. Of those that are equally far, the least id decides.
    fn nearer(self, other: Aim) -> Aim
        ensures { result ≡ nearer_aim self other }
    {
        if other.far < self.far || other.far == self.far && other.id < self.id {
            other
        } else {
            self
        }
    }
}

/// An order of a bot, where not all enemies were looked at yet.
#[derive(Clone, Copy, Debug)]
pub(crate) enum Draft {
    /// This order, whatever the enemies are.
    Whole(Order),
    /// To attack the nearest enemy.
    Attack {
        /// The attacker's id.
        actor: u32,
        /// The attacker's cell.
        from: CPos,
        /// The nearest enemy of those that were looked at.
        aim: Aim,
    },
}

impl Draft {
    /// The draft, where one more enemy was looked at.
    pub(crate) fn seeing(self, enemy: Enemy) -> Draft
        ensures { result ≡ seeing enemy self }
    {
        match self {
            Draft::Whole(order) => Draft::Whole(order),
            Draft::Attack { actor, from, aim } => Draft::Attack {
                actor,
                from,
                aim: aim.nearer(Aim::at(from, enemy)),
            },
        }
    }

    /// Whether it is to attack.
    pub(crate) fn is_attack(&self) -> bool
        ensures { result ≡ is_attack self.now }
    {
        match self {
            Draft::Whole(_) => false,
            Draft::Attack { .. } => true,
        }
    }

    /// Its order, where all enemies were looked at.
    pub(crate) fn order(self) -> Order
        ensures { result ≡ ordered self }
    {
        match self {
            Draft::Whole(order) => order,
            Draft::Attack {
                actor,
                from: _,
                aim,
            } => Order::Attack {
                actor,
                target: aim.id,
                queued: false,
            },
        }
    }
}

/// Fills the unused room of a list.
impl Default for Draft {
    ghost use Rattle.std.specs.Prelude.{◌≡◌};
    ghost use Rattle.game_orders.specs.declared.order.Order.TheVariants.{Donate};
    ghost use Rattle.bot_player.specs.declared.draft.Draft.TheVariants.{Whole};

    ghost is_default = { λ d. d ≡ Whole (Donate 0 0) };

    fn default() -> Self {
        Draft::Whole(Order::Donate { to: 0, amount: 0 })
    }
}
