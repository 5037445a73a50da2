ghost use Rattle.std.specs.Prelude.{◌≡◌, ◌≤◌, length};
ghost use Rattle.game_orders.specs.declared.limits.TheConstants.{MAX_ORDERS};

use game_orders::{Order, Orders};
use std::marker::Model;

/// The orders of a seal, at most `MAX_ORDERS`, lent by the list that stores them.
#[derive(Drop)]
pub struct SealOrders<'a> {
    part: &'a [Order],
}

impl<'a> Model for SealOrders<'a> {
    ghost use Rattle.std.specs.Prelude.{List, ◌≤◌, length};
    ghost use Rattle.game_orders.specs.declared.order.Order.{Order};
    ghost use Rattle.game_orders.specs.declared.limits.TheConstants.{MAX_ORDERS};

    ghost Value = { List Order };

    ghost view = { λ orders. orders.part.now };

    ghost invariant = { λ orders. length orders.part.now ≤ MAX_ORDERS };
}

impl<'a> SealOrders<'a> {
    /// These orders, at most `MAX_ORDERS`.
    pub(crate) fn of(part: &'a [Order]) -> SealOrders<'a>
        requires { length part.now ≤ MAX_ORDERS }
        ensures { result ≡ part.now }
    {
        SealOrders { part }
    }

    /// The same orders, held apart from the list.
    pub fn copy(&self) -> Orders
        ensures { result ≡ self.now }
    {
        orders_of(self.part)
    }
}

/// Orders of their own.
fn orders_of(part: &[Order]) -> Orders
    requires { length part.now ≤ MAX_ORDERS }
    ensures { result ≡ part.now }
{
    let mut orders = Orders::empty();
    orders.replace(part);
    orders
}
