use crate::play_cause::PlayCause;

/// How a player's match ended.
#[derive(Clone, Copy, Debug, PartialEq, Eq)]
pub enum PlayEnd {
    /// The match is over: each client has left, and all its plays before that came.
    Over,
    /// The server refused the player.
    Refused {
        /// Why, as the server says: any `u8`.
        code: u8,
    },
    /// The bytes of the link were refused.
    BadLink {
        /// The place in the bytes at which the packet begins that was refused, or at which the next
        /// one would begin.
        at: u64,
        /// Why.
        cause: PlayCause,
    },
    /// The link failed.
    Lost,
}
