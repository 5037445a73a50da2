use thiserror::Error;

/// Why a peer can't seal its next frame.
#[derive(Debug, Drop, PartialEq, Eq, Error)]
pub enum SealFault {
    /// The peer has sealed as many frames ahead of its ticked ones as its lag allows.
    #[error("the next frame is further ahead than the lag")]
    TooEarly,
    /// The peer's own departure has reached it.
    #[error("the client has left the match")]
    LeftAlready,
    /// The peer has sealed all the frames that a match may have.
    #[error("the match has no more frames")]
    MatchFull,
}
