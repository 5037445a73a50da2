ghost use Rattle.std.specs.Prelude.{◌≡◌, ◌++◌, ℕ, List, Ok};
ghost use Rattle.game_orders.specs.declared.order.Order.{Order};
ghost use Rattle.game_orders.specs.OrderBytes.{order_bytes, orders_bytes, FitsOrder, FitsOrders};
ghost use Rattle.game_orders.specs.OrderReading.{order_at, orders_at};

/// A law of orders as bytes: an order's spelling reads as the order, and then what follows it. So
/// no spelling of an order begins that of another. The call does nothing.
#[tactic(auto, using(crate::proofs::OrderBytesLemmas::order_again))]
pub fn order_is_read_back()
    ensures { (order : Order) (rest : List ℕ) → FitsOrder order →
        order_at (order_bytes order ++ rest) ≡ Ok (order, rest) }
{}

/// A law of orders as bytes: the spelling of a client's orders for one frame reads as the orders,
/// and then what follows it. The call does nothing.
#[tactic(auto, using(crate::proofs::OrdersLemmas::orders_again))]
pub fn orders_are_read_back()
    ensures { (orders : List Order) (rest : List ℕ) → FitsOrders orders →
        orders_at (orders_bytes orders ++ rest) ≡ Ok (orders, rest) }
{}
