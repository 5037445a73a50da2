use frame_core::Sim;
use peer_core::Peer;

/// A player that was welcomed.
#[derive(Drop)]
pub(crate) struct Player<S: Sim> {
    pub(crate) peer: Peer<S>,
    /// How many of its frames it has sealed.
    pub(crate) sealed: usize,
    /// It writes no more: it has said farewell, or its own departure has come.
    pub(crate) quiet: bool,
}
