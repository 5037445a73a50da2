use crate::play_end::PlayEnd;
use frame_core::Sim;

/// A player's match that has ended.
#[derive(Drop)]
pub struct Played<S: Sim> {
    /// How it ended.
    pub end: PlayEnd,
    /// The number of the player's client, or 0 where it was not welcomed.
    pub client: u8,
    /// How many frames the player has ticked, 0 where it was not welcomed.
    pub frames: u32,
    /// The player's world after these frames. None exactly where it was not welcomed.
    pub sim: Option<S>,
}
