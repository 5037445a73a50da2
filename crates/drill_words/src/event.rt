use game_orders::Orders;

/// One event of a drill. Peers and clients are numbered below the drill's clients, frames and
/// packets from 0.
#[derive(Debug, Drop)]
pub enum Event {
    /// The peer seals its next frame with these orders, and its packet is sent up.
    Seal {
        /// The peer, below the clients.
        peer: u8,
        /// What it plays.
        orders: Orders,
    },
    /// The server gets the packet of this number.
    Up {
        /// The packet's number in order of sending, any `u32`.
        packet: u32,
    },
    /// The peer gets the agreed entry of a client at a frame.
    Down {
        /// The peer, below the clients.
        peer: u8,
        /// The client, below the clients.
        client: u8,
        /// The frame, any `u32`.
        frame: u32,
    },
    /// The peer ticks if it can.
    Tick {
        /// The peer, below the clients.
        peer: u8,
    },
    /// The server ticks if it can.
    TickServer,
    /// The server lets a client leave.
    DropClient {
        /// The client, below the clients.
        client: u8,
    },
    /// A report of the peer's last ticked frame is sent up.
    Report {
        /// The peer, below the clients.
        peer: u8,
    },
    /// A report in a client's name is sent up.
    Forge {
        /// The client, below the clients.
        client: u8,
        /// The frame that it reports on, any `u32`.
        frame: u32,
        /// The hash that it reports, any `u64`.
        hash: u64,
    },
    /// The peer's farewell is sent up.
    Bye {
        /// The peer, below the clients.
        peer: u8,
    },
}
