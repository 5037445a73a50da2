use game_orders::Entry;

/// A packet from the server to a client.
#[derive(Debug, Drop)]
pub enum Down {
    /// The client is in the match.
    Welcome {
        /// The client's number, as the server says: any `u8`.
        client: u8,
        /// The number of clients, as the server says: any `u8`.
        clients: u8,
        /// The lag in frames, as the server says: any `u8`.
        lag: u8,
        /// The seed of the world, any `u32`.
        seed: u32,
    },
    /// The client is not in the match.
    Refused {
        /// Why, any `u8`.
        code: u8,
    },
    /// What a client did for a frame.
    Entry {
        /// The client, any `u8`.
        client: u8,
        /// The frame, any `u32`.
        frame: u32,
        /// Its play or its departure.
        entry: Entry,
    },
}
