ghost use Rattle.std.specs.Prelude.{◌≡◌};
ghost use Rattle.drill.specs.PacketView.{packet_of};

use drill_words::SealOrders;
use order_packets::Up;

/// A packet that a drill sends up, its orders lent by the list of the events.
#[derive(Drop)]
pub(crate) enum PacketView<'a> {
    /// A play for a frame.
    Orders {
        /// The frame.
        frame: u32,
        /// Its orders.
        orders: SealOrders<'a>,
    },
    /// A report of a world.
    Sync {
        /// The frame that it reports on.
        frame: u32,
        /// The hash that it reports.
        hash: u64,
    },
    /// A farewell.
    Bye,
}

impl<'a> PacketView<'a> {
    /// The packet, its orders held apart from the list.
    pub(crate) fn packet(&self) -> Up
        ensures { result ≡ packet_of self.now }
    {
        match self {
            PacketView::Orders { frame, orders } => Up::Orders {
                frame: *frame,
                orders: orders.copy(),
            },
            PacketView::Sync { frame, hash } => Up::Sync {
                frame: *frame,
                hash: *hash,
            },
            PacketView::Bye => Up::Bye,
        }
    }
}
