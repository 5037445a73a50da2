/// What a tick answers. Only `Ticked` changes anything.
#[derive(Clone, Copy, Debug, PartialEq, Eq)]
pub enum TickAnswer {
    /// The world made one step, by this frame.
    Ticked(u32),
    /// This client, the least such, has neither a play at the frame nor a departure at or before
    /// it.
    NotYet(u8),
    /// All clients have left: there is no such frame.
    Over,
}
