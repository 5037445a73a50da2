use crate::read_cause::ReadCause;

/// How the reading of a link ended.
#[derive(Clone, Copy, Debug, PartialEq, Eq)]
pub enum ReaderEnd {
    /// With the client's farewell, or the end of the bytes.
    Ended,
    /// The bytes were refused.
    Refused(ReadCause),
    /// The client had left at this frame, and the session was not what let it leave.
    LeftAt(u32),
    /// The link failed.
    Lost,
    /// Memory ran out.
    NoMemory,
}
