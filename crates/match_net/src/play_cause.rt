use order_packets::FeedFault;

/// Why a player goes on no further with its link.
#[derive(Clone, Copy, Debug, PartialEq, Eq)]
pub enum PlayCause {
    /// A fault stands in a packet's place.
    Feed(FeedFault),
    /// The first packet is neither a welcome nor a refusal, or it welcomes to no match that can be;
    /// or a later packet is a welcome or a refusal.
    BadWelcome,
    /// An entry is that of no client of the match.
    BadClient,
    /// Another entry of the client stands at the frame.
    Conflict,
    /// The entry contradicts the client's departure, or it is one before an entry that is kept.
    Past,
    /// No match has the frame.
    Beyond,
    /// The bytes end before the match is over.
    Early,
    /// [`crate::MAX_PLAY_BYTES`] were taken, and the match is not over.
    SessionTooLong,
}
