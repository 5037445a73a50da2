use crate::play_cause::PlayCause;

/// How what comes down to a player ends its match. It stands in contracts alone.
pub enum StopReason {
    /// The match is over.
    Over,
    /// The server refused the player with this code.
    Refused(u8),
    /// The bytes were refused.
    Bad(PlayCause),
    /// The bytes end.
    Open,
}
