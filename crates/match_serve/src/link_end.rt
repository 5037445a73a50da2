use match_net::ReadCause;

/// How the link of a client ended.
#[derive(Clone, Copy, Debug, PartialEq, Eq)]
pub enum LinkEnd {
    /// With the client's farewell, or the end of its bytes.
    Ended,
    /// The client's bytes were refused.
    Refused(ReadCause),
    /// The client was let go at this frame, and the console kicked it.
    Kicked(u32),
    /// A half of the link failed.
    Lost,
    /// Memory ran out for this link.
    Memory,
}
