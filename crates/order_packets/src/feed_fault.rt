ghost use Rattle.std.specs.Prelude.{◌≡◌};
ghost use Rattle.order_packets.specs.PacketReading.{packet_fault};
ghost use Rattle.order_packets.specs.declared.feed_fault.FeedFault.TheVariants as fault;

use game_orders::OrdersFault;
use thiserror::Error;
use wire_bytes::Short;

/// Why a stream of packets goes on with no packet.
#[derive(Clone, Copy, Debug, PartialEq, Eq, Error)]
pub enum FeedFault {
    /// The tag is none of the packets of this direction.
    #[error("the tag of a packet is unknown")]
    BadTag,
    /// A list has more than [`game_orders::MAX_ORDERS`] orders.
    #[error("a packet has too many orders")]
    TooManyOrders,
    /// An order's tag or flag is bad.
    #[error("an order has a bad tag or flag")]
    BadOrder,
    /// Bytes follow the last field within the packet.
    #[error("bytes follow the last field of a packet")]
    TrailingInPacket,
    /// The length is above [`crate::MAX_PAYLOAD`].
    #[error("a packet is too long")]
    LengthTooLarge,
    /// A field runs past the end of the packet.
    #[error("a field runs past the end of a packet")]
    ShortPacket,
}

impl From<Short> for FeedFault {
    ghost from_gives = { λ _ error. error ≡ fault.ShortPacket };

    fn from(_error: Short) -> FeedFault {
        FeedFault::ShortPacket
    }
}

impl From<OrdersFault> for FeedFault {
    ghost from_gives = { λ orders error. error ≡ packet_fault orders };

    fn from(orders: OrdersFault) -> FeedFault {
        match orders {
            OrdersFault::Short => FeedFault::ShortPacket,
            OrdersFault::TooMany => FeedFault::TooManyOrders,
            OrdersFault::BadOrder => FeedFault::BadOrder,
        }
    }
}
