ghost use Rattle.std.specs.Prelude.{◌≡◌, ◌≤◌, [], ◌∷◌, length, IfOk};
ghost use Rattle.peer_core.specs.StoredOrders.{orders_of};
ghost use Rattle.game_orders.specs.Order.{same_orders};

use crate::held_orders::HeldOrders;
use base::NoMemory;
use game_orders::{MAX_ORDERS, Order, Orders};
use std::alloc::Global;
use std::marker::Model;

/// The orders of one play, stored in little room.
#[derive(Drop)]
pub(crate) struct StoredOrders {
    held: HeldOrders,
}

impl Model for StoredOrders {
    ghost use Rattle.std.specs.Prelude.{List};
    ghost use Rattle.game_orders.specs.declared.order.Order.{Order};
    ghost use Rattle.peer_core.specs.StoredOrders.{orders_of};

    ghost Value = { List Order };

    ghost view = { λ stored. orders_of stored.held };
}

impl StoredOrders {
    /// These orders. It fails only where it is out of memory.
    pub(crate) fn create(alloc: Global, orders: &Orders) -> Result<StoredOrders, NoMemory>
        ensures { IfOk result (λ stored. stored ≡ orders.now) }
    {
        let Some(first) = orders.get(0) else {
            return Ok(stored(HeldOrders::Nothing));
        };
        if orders.len() == 1 {
            return Ok(stored(HeldOrders::One(*first)));
        }
        Ok(stored(HeldOrders::More(boxed(alloc, orders)?)))
    }

    /// Whether these are the stored orders.
    #[tactic(auto, using(crate::proofs::SameLemmas::same_laws))]
    pub(crate) fn is_same(&self, orders: &Orders) -> bool
        ensures { result ≡ same_orders orders.now self.now }
    {
        match &self.held {
            HeldOrders::Nothing => orders.is_empty(),
            HeldOrders::One(kept) => is_one(orders, *kept),
            HeldOrders::More(kept) => *orders == **kept,
        }
    }

    /// The orders, where they stand.
    pub(crate) fn as_slice(&self) -> &[Order]
        ensures value { result.now ≡ self.now }
        ensures limit { length result.now ≤ MAX_ORDERS }
    {
        match &self.held {
            HeldOrders::Nothing => [].as_slice(),
            HeldOrders::One(order) => std::slice::from_ref(order),
            HeldOrders::More(orders) => orders.as_slice(),
        }
    }

    /// The orders once more.
    pub(crate) fn to_orders(&self) -> Orders
        ensures { result ≡ self.now }
    {
        let mut orders = Orders::empty();
        orders.replace(self.as_slice());
        orders
    }
}

/// The orders in this room.
fn stored(held: HeldOrders) -> StoredOrders
    ensures { result ≡ orders_of held }
{
    StoredOrders { held }
}

/// The orders once more, in room of their own. It fails only where it is out of memory.
fn boxed(alloc: Global, orders: &Orders) -> Result<Box<Orders>, NoMemory>
    ensures { IfOk result (λ copied. copied.value ≡ orders.now) }
{
    Ok(Box::new(alloc, orders.copy())?)
}

/// Whether the orders are this one alone.
#[tactic(auto, using(crate::proofs::SameLemmas::same_laws))]
fn is_one(orders: &Orders, kept: Order) -> bool
    ensures { result ≡ same_orders orders.now (kept ∷ []) }
{
    if orders.len() != 1 {
        return false;
    }
    match orders.get(0) {
        Some(first) => *first == kept,
        None => false,
    }
}
