ghost use Rattle.std.specs.Prelude.{◌≡◌, ◌≤◌, [], ◌++◌, OnErr, IfOk, length};
ghost use Rattle.wire_bytes.specs.Read.{Reads};
ghost use Rattle.game_orders.specs.OrderBytes.{each_order, orders_bytes};
ghost use Rattle.game_orders.specs.OrderReading.{orders_after, orders_at};

use crate::limits::MAX_ORDERS;
use crate::order_reading::read_order;
use crate::orders::Orders;
use crate::orders_fault::OrdersFault;
use wire_bytes::Cursor;

/// Reads so many orders, at most [`MAX_ORDERS`], one after the other.
#[tactic(auto, using(crate::proofs::OrdersLemmas::reading_steps))]
fn read_each(c: &mut Cursor<'_>, count: u8) -> Result<Orders, OrdersFault>
    requires { count ≤ MAX_ORDERS }
    ensures reads { Reads (orders_after [] count) c.old c.new result }
    ensures spelled { IfOk result (λ orders. (length orders ≡ count)
        × (c.old ≡ each_order orders ++ c.new)) }
{
    let mut orders = Orders::empty();
    for _ in 0..count {
        let order = read_order(c)?;
        orders.push(order);
    }
    Ok(orders)
}

/// Reads a count, and so many orders.
#[tactic(auto, unfolding(crate::specs::OrderReading::orders_at, crate::specs::OrderBytes::orders_bytes))]
fn read_counted(c: &mut Cursor<'_>) -> Result<Orders, OrdersFault>
    ensures reads { Reads orders_at c.old c.new result }
    ensures spelled { IfOk result (λ orders. c.old ≡ orders_bytes orders ++ c.new) }
{
    let count = c.read_u8()?;
    if count > MAX_ORDERS {
        return Err(OrdersFault::TooMany);
    }
    read_each(c, count)
}

/// Reads the orders of one client for one frame: a byte with their number, then each of them as
/// [`crate::read_order`] reads it.
///
/// The first fault from the left is the answer: `Short` exactly where the number or an order runs
/// past the end, `TooMany` exactly at a number above [`MAX_ORDERS`], `BadOrder` exactly at an
/// order's bad tag or flag. Then the cursor stays.
pub fn read_orders(c: &mut Cursor<'_>) -> Result<Orders, OrdersFault>
    ensures reads { Reads orders_at c.old c.new result }
    ensures spelled { IfOk result (λ orders. c.old ≡ orders_bytes orders ++ c.new) }
    ensures stays { OnErr result (c.new ≡ c.old) }
{
    let start = c.rest();
    let read = read_counted(c);
    if read.is_err() {
        *c = Cursor::over(start);
    }
    read
}
