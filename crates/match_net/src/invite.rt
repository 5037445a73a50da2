/// What the server tells one link: which client it is, and in which match.
#[derive(Clone, Copy, Debug, PartialEq, Eq)]
pub struct Invite {
    /// The client's number, below the number of clients.
    pub client: u8,
    /// The number of clients, 1 to `MAX_CLIENTS`.
    pub clients: u8,
    /// The lag in frames, 1 to `MAX_LAG`.
    pub lag: u8,
    /// The seed of the world, any `u32`.
    pub seed: u32,
    /// The hash of the server's rules and map, any `u64`.
    pub rules: u64,
}
