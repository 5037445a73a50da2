ghost use Rattle.std.specs.Prelude.{◌≡◌};
ghost use Rattle.game_orders.specs.OrderReading.{list_fault};
ghost use Rattle.game_orders.specs.declared.orders_fault.OrdersFault.TheVariants as fault;

use crate::order_fault::OrderFault;
use thiserror::Error;
use wire_bytes::Short;

/// Why bytes begin with no list of orders: the first fault from the left.
#[derive(Clone, Copy, Debug, PartialEq, Eq, Error)]
pub enum OrdersFault {
    /// The count or an order runs past the end of the bytes.
    #[error("a list of orders runs past the end")]
    Short,
    /// The count is above [`crate::MAX_ORDERS`].
    #[error("too many orders")]
    TooMany,
    /// An order's tag or flag is bad.
    #[error("an order has a bad tag or flag")]
    BadOrder,
}

impl From<Short> for OrdersFault {
    ghost from_gives = { λ _ error. error ≡ fault.Short };

    fn from(_error: Short) -> OrdersFault {
        OrdersFault::Short
    }
}

impl From<OrderFault> for OrdersFault {
    ghost from_gives = { λ order error. error ≡ list_fault order };

    fn from(order: OrderFault) -> OrdersFault {
        match order {
            OrderFault::Short => OrdersFault::Short,
            OrderFault::BadTag | OrderFault::BadFlag => OrdersFault::BadOrder,
        }
    }
}
