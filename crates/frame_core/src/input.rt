/// What a client has for a frame.
#[derive(Clone, Copy, Debug, PartialEq, Eq)]
pub enum Input {
    /// Neither a play at the frame nor a departure at or before it.
    Missing,
    /// A play at the frame.
    Played,
    /// A departure at the frame or before it.
    Departed,
}
