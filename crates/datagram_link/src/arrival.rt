/// What a post had for a receiver.
#[derive(Clone, Copy, Debug, PartialEq, Eq)]
pub enum Arrival {
    /// A datagram: so many of its bytes were given.
    Got(usize),
    /// None.
    Quiet,
}
