use order_packets::FeedFault;

/// Why the bytes of a client's link were refused.
#[derive(Clone, Copy, Debug, PartialEq, Eq)]
pub enum ReadCause {
    /// A fault stands in a packet's place.
    Feed(FeedFault),
    /// Another play of the client stands at the frame.
    Conflict,
    /// Frames before this one are missing.
    Ahead,
    /// The client has played all frames that a match may have.
    Full,
    /// The client greets a second time.
    SecondHello,
    /// The client's packets are of another version.
    Version,
    /// The client's rules are others.
    OtherRules,
    /// The first packet is no greeting.
    NoHello,
    /// [`crate::MAX_LINK_BYTES`] were taken, and hold no earlier end.
    SessionTooLong,
}
