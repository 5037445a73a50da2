ghost use Rattle.std.specs.Prelude.{◌≡◌, ◌+◌, ◌<◌, ◌≤◌, ◌↔◌, [], ◌∷◌, ◌++◌, length, IsTrue, IfNone};
ghost use Rattle.std.specs.Prelude.{slice_get};
ghost use Rattle.std.specs.Option.{option_copied};
ghost use Rattle.std.specs.Bool.{OnTrue, OnFalse};
ghost use Rattle.game_orders.specs.HeldOrders.{orders_of};

use crate::held_orders::HeldOrders;
use crate::limits::{MAX_ORDERS, ORDERS_ROOM};
use crate::order::Order;
use arrayvec::ArrayVec;
use std::marker::Model;

/// The orders of one client for one frame: at most [`MAX_ORDERS`], in the order in which they are
/// applied.
#[derive(Debug)]
pub struct Orders {
    held: HeldOrders,
}

// By hand, so that what drops one needs no proof of how its parts are dropped.
impl Drop for Orders {
    fn drop(self) {
        let Self { held: _ } = self;
    }
}

impl Model for Orders {
    ghost use Rattle.std.specs.Prelude.{List, ◌≤◌, length};
    ghost use Rattle.game_orders.specs.declared.order.Order.{Order};
    ghost use Rattle.game_orders.specs.declared.limits.TheConstants.{MAX_ORDERS};
    ghost use Rattle.game_orders.specs.HeldOrders.{orders_of};

    ghost Value = { List Order };

    ghost view = { λ orders. orders_of orders.held };

    ghost invariant = { λ orders. length (orders_of orders.held) ≤ MAX_ORDERS };
}

impl Orders {
    /// No orders.
    pub fn empty() -> Orders
        ensures { result ≡ [] }
    {
        Orders {
            held: HeldOrders::Nothing,
        }
    }

    /// Adds an order last. False exactly where [`MAX_ORDERS`] are there, and then nothing changes.
    pub fn try_push(&mut self, o: Order) -> bool
        ensures room { IsTrue result ↔ (length self.old < MAX_ORDERS) }
        ensures added { OnTrue result (self.new ≡ self.old ++ o ∷ []) }
        ensures full { OnFalse result (self.new ≡ self.old) }
    {
        if self.len() < ORDERS_ROOM {
            self.push(o);
            true
        } else {
            false
        }
    }

    /// Adds an order last. Fewer than [`MAX_ORDERS`] are there before.
    pub fn push(&mut self, o: Order)
        requires { length self.old < MAX_ORDERS }
        ensures { self.new ≡ self.old ++ o ∷ [] }
    {
        add(&mut self.held, o);
    }

    /// Puts these orders, at most [`MAX_ORDERS`], in the place of those that are there.
    pub fn replace(&mut self, orders: &[Order])
        requires { length orders.now ≤ MAX_ORDERS }
        ensures { self.new ≡ orders.now }
    {
        put(&mut self.held, orders);
    }

    /// The number of orders, at most [`MAX_ORDERS`].
    pub fn len(&self) -> usize
        ensures value { result ≡ length self.now }
        ensures limit { result ≤ MAX_ORDERS }
    {
        self.as_slice().len()
    }

    /// True where there is none.
    pub fn is_empty(&self) -> bool
        ensures { IsTrue result ↔ (self.now ≡ []) }
    {
        self.as_slice().is_empty()
    }

    /// The i-th order, from 0. None exactly where `i` is the length or more.
    pub fn get(&self, i: usize) -> Option<&Order>
        ensures value { option_copied result ≡ slice_get self.now i }
        ensures past { IfNone result (length self.now ≤ i) }
    {
        self.as_slice().get(i)
    }

    /// The orders, in the order in which they are applied.
    pub fn as_slice(&self) -> &[Order]
        ensures value { result.now ≡ self.now }
        ensures limit { length result.now ≤ MAX_ORDERS }
    {
        lent(&self.held)
    }

    /// The same orders once more.
    pub fn copy(&self) -> Orders
        ensures { result ≡ self.now }
    {
        Orders {
            held: held_of(self.as_slice()),
        }
    }
}

/// The orders, where they stand.
fn lent(held: &HeldOrders) -> &[Order]
    ensures { result.now ≡ orders_of held.now }
{
    match held {
        HeldOrders::Nothing => [].as_slice(),
        HeldOrders::One(order) => std::slice::from_ref(order),
        HeldOrders::More(orders) => orders.as_slice(),
    }
}

/// Adds an order last.
fn add(held: &mut HeldOrders, o: Order)
    requires { length (orders_of held.old) < MAX_ORDERS }
    ensures { orders_of held.new ≡ orders_of held.old ++ o ∷ [] }
{
    match held {
        HeldOrders::Nothing => *held = HeldOrders::One(o),
        HeldOrders::One(first) => *held = HeldOrders::More(both(*first, o)),
        HeldOrders::More(orders) => orders.push(o),
    }
}

/// Two orders, with room for more.
fn both(first: Order, second: Order) -> ArrayVec<Order, ORDERS_ROOM>
    ensures { result.items ≡ first ∷ second ∷ [] }
{
    let mut orders = ArrayVec::new();
    orders.push(first);
    orders.push(second);
    orders
}

/// Puts these orders in the place of those that are held, where there is room for them.
fn put(held: &mut HeldOrders, orders: &[Order])
    requires { length orders.now ≤ MAX_ORDERS }
    ensures { orders_of held.new ≡ orders.now }
{
    if let HeldOrders::More(own) = held {
        own.clear();
        extend(own, orders);
    } else {
        *held = held_of(orders);
    }
}

/// These orders, in as little room as they need.
fn held_of(orders: &[Order]) -> HeldOrders
    requires { length orders.now ≤ MAX_ORDERS }
    ensures { orders_of result ≡ orders.now }
{
    match orders {
        [] => HeldOrders::Nothing,
        [order] => HeldOrders::One(*order),
        _ => HeldOrders::More(room_of(orders)),
    }
}

/// These orders, with room for more.
fn room_of(orders: &[Order]) -> ArrayVec<Order, ORDERS_ROOM>
    requires { length orders.now ≤ MAX_ORDERS }
    ensures { result.items ≡ orders.now }
{
    let mut room = ArrayVec::new();
    extend(&mut room, orders);
    room
}

/// Adds these orders, for which there is room.
fn extend(room: &mut ArrayVec<Order, ORDERS_ROOM>, orders: &[Order])
    requires { length room.old.items + length orders.now ≤ MAX_ORDERS }
    ensures { room.new.items ≡ room.old.items ++ orders.now }
{
    let Ok(()) = room.try_extend_from_slice(orders) else {
        unreachable!()
    };
}

impl PartialEq for Orders {
    ghost use Rattle.game_orders.specs.Order.{same_orders};
    ghost use Rattle.game_orders.specs.OrderEquality.{orders_decides};
    ghost use Rattle.std.specs.Cmp.{decided, partial_equiv_from_equiv};

    ghost eq = { same_orders };

    ghost laws = { partial_equiv_from_equiv (decided same_orders orders_decides) };

    fn eq(&self, other: &Orders) -> bool {
        self.as_slice() == other.as_slice()
    }
}

impl Eq for Orders {
    ghost use Rattle.game_orders.specs.Order.{same_orders};
    ghost use Rattle.game_orders.specs.OrderEquality.{orders_decides};
    ghost use Rattle.std.specs.Cmp.{decided};

    ghost laws = { decided same_orders orders_decides };
}
