use crate::gram_fault::GramFault;

/// What a turn of an end was.
#[derive(Clone, Copy, Debug, PartialEq, Eq)]
pub enum Turn {
    /// No datagram waited.
    Quiet,
    /// The bytes that came are no datagram, for this fault.
    Refused(GramFault),
    /// A datagram was taken.
    Took,
}
