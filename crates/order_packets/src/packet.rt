ghost use Rattle.std.specs.Prelude.{◌≡◌, ◌++◌, ℕ, List, IfOk};
ghost use Rattle.wire_bytes.specs.Read.{Reads};

use crate::feed_fault::FeedFault;
use wire_bytes::Cursor;

/// A packet of one direction of a link: what a feeder gives.
pub trait Packet: Drop {
    ghost use Rattle.std.specs.Prelude.{Result};
    ghost use Rattle.order_packets.specs.declared.feed_fault.FeedFault.{FeedFault};

    /// The packet's payload: its tag, then its fields.
    ghost payload: { Self → List ℕ };

    /// The packet that bytes begin with and the bytes after it, or the first fault from the left.
    ghost at: { List ℕ → Result (Self × List ℕ) FeedFault };

    /// Reads a packet's tag and its fields from the bytes of a payload.
    ///
    /// The first fault from the left is the answer: `BadTag`, `ShortPacket`, `TooManyOrders` or
    /// `BadOrder`.
    fn read(c: &mut Cursor<'_>) -> Result<Self, FeedFault>
        ensures reads { Reads at c.old c.new result }
        ensures spelled { IfOk result (λ packet. c.old ≡ payload packet ++ c.new) };
}
