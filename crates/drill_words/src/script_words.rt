use game_orders::Orders;

/// The first kept line of a script: `script CLIENTS SEED`.
#[derive(Clone, Copy, Debug)]
pub(crate) struct ScriptHead {
    /// The number of clients, 1 to `MAX_CLIENTS`.
    pub clients: u8,
    /// The seed of the opening world, any `u32`.
    pub seed: u32,
}

/// A further line of a script: what a client plays in its next frame.
#[derive(Debug, Drop)]
pub(crate) struct ScriptPlay {
    /// The client, below the clients.
    pub client: u8,
    /// What it plays.
    pub orders: Orders,
}
