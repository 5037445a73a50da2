use crate::read_cause::ReadCause;

/// How a client's own bytes end its session. It stands in contracts alone.
pub enum Ending {
    /// The client's farewell.
    Bye,
    /// The bytes were refused.
    Refused(ReadCause),
    /// The end of the bytes.
    Over,
}
