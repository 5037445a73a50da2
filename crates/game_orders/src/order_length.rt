ghost use Rattle.std.specs.Prelude.{◌≡◌, ◌≤◌, length};
ghost use Rattle.game_orders.specs.OrderBytes.{order_bytes, orders_bytes};

use crate::order::Order;
use crate::orders::Orders;

/// How many bytes an order's spelling has, at most 10, those of an Attack.
#[tactic(auto, using(crate::proofs::OrdersLemmas::length_steps))]
fn order_length(o: &Order) -> usize
    ensures value { result ≡ length (order_bytes o.now) }
    ensures limit { result ≤ 10 }
{
    match o {
        Order::Move { .. } | Order::Harvest { .. } => 8,
        Order::Attack { .. } => 10,
        Order::Stop { .. } | Order::Cancel { .. } => 5,
        Order::Produce { .. } => 7,
        Order::Donate { .. } => 6,
        Order::Pace { .. } => 2,
    }
}

/// How many bytes the spelling of the orders of one client for one frame has, at most
/// 161: a byte, and 10 for each of [`crate::MAX_ORDERS`] orders.
#[tactic(auto, using(crate::proofs::OrdersLemmas::length_steps), unfolding(crate::specs::OrderBytes::orders_bytes))]
pub fn orders_length(orders: &Orders) -> usize
    ensures value { result ≡ length (orders_bytes orders.now) }
    ensures limit { result ≤ 161 }
{
    let mut length = 1;
    for order in orders.as_slice() {
        length += order_length(order);
    }
    length
}
