ghost use Rattle.std.specs.Prelude.{◌≡◌, ◌++◌, OnOk, OnErr, length};
ghost use Rattle.wire_bytes.specs.Write.{Extends};
ghost use Rattle.game_orders.specs.OrderBytes.{each_order, orders_bytes, FitsOrders};

use crate::order::Order;
use crate::order_writing::{order_fits, write_order};
use crate::orders::Orders;
use base::NoMemory;
use wire_bytes::write_u8;

/// Appends the spelling of each order.
#[tactic(auto, using(crate::proofs::OrdersLemmas::writing_steps))]
fn append_each(out: &mut Vec<u8>, orders: &[Order]) -> Result<(), NoMemory>
    ensures ok { OnOk result (out.new.items ≡ out.old.items ++ each_order orders.now) }
    ensures err { OnErr result (Extends out.old.items out.new.items) }
{
    for order in orders {
        write_order(out, order)?;
    }
    Ok(())
}

/// Appends the number of orders, and the spelling of each of them.
#[tactic(auto, using(wire_bytes::proofs::WriteLemmas::written), unfolding(crate::specs::OrderBytes::orders_bytes))]
fn append_counted(out: &mut Vec<u8>, orders: &Orders) -> Result<(), NoMemory>
    ensures ok { OnOk result (out.new.items ≡ out.old.items ++ orders_bytes orders.now) }
    ensures err { OnErr result (Extends out.old.items out.new.items) }
{
    write_u8(out, orders.len() as u8)?;
    append_each(out, orders.as_slice())
}

/// Appends the one spelling of the orders of one client for one frame, which
/// [`crate::read_orders`] reads. Without memory `out` stays as it was.
pub fn write_orders(out: &mut Vec<u8>, orders: &Orders) -> Result<(), NoMemory>
    ensures ok { OnOk result (out.new.items ≡ out.old.items ++ orders_bytes orders.now) }
    ensures err { OnErr result (out.new.items ≡ out.old.items) }
{
    let start = out.len();
    let written = append_counted(out, orders);
    if written.is_err() {
        out.truncate(start);
    }
    written
}

/// The orders of one client for one frame that code holds are at most [`crate::MAX_ORDERS`], and
/// their numbers fit their fields. The call does nothing.
#[tactic(auto, using(crate::proofs::OrdersLemmas::fitting_steps))]
pub fn orders_fit(orders: &Orders)
    ensures { FitsOrders orders.now }
{
    for order in orders.as_slice() {
        order_fits(order);
    }
}
