use game_model::{Gone, Purse};

/// The clients of a world.
#[derive(Drop)]
pub struct Clients {
    /// The cash of each client, by rising number.
    pub(crate) cash: Purse,
    /// Whether each client has departed, by rising number.
    pub(crate) gone: Gone,
}
