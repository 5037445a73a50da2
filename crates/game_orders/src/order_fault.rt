ghost use Rattle.std.specs.Prelude.{◌≡◌};
ghost use Rattle.game_orders.specs.declared.order_fault.OrderFault.TheVariants as fault;

use thiserror::Error;
use wire_bytes::Short;

/// Why bytes begin with no order: the first fault from the left.
#[derive(Clone, Copy, Debug, PartialEq, Eq, Error)]
pub enum OrderFault {
    /// The tag or a field runs past the end of the bytes.
    #[error("an order runs past the end")]
    Short,
    /// The tag is none of 1 to 8.
    #[error("the tag of an order is unknown")]
    BadTag,
    /// A queued flag is neither 0 nor 1.
    #[error("a flag is neither 0 nor 1")]
    BadFlag,
}

impl From<Short> for OrderFault {
    ghost from_gives = { λ _ error. error ≡ fault.Short };

    fn from(_error: Short) -> OrderFault {
        OrderFault::Short
    }
}
