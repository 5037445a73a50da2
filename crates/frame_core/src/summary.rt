use game_orders::PerClient;

/// What a report has of a world beside its hash.
#[derive(Debug, Drop)]
pub struct Summary {
    /// The number of actors.
    pub actors: u32,
    /// The cash of each client, by rising number.
    pub cash: PerClient<u32>,
}
