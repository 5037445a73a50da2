/// Whether a frame can be ticked.
#[derive(Clone, Copy, Debug, PartialEq, Eq)]
pub enum Ready {
    /// Each client has a play at the frame or has left at or before it, and some client has a play.
    Yes,
    /// This client, the least such, has neither.
    NotYet(u8),
    /// All clients have left: there is no such frame.
    Over,
}
