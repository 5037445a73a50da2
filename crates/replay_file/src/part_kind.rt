/// What a part of a replay is, beside a [`Frame`](game_orders::Frame) that has the entries where it
/// is a frame.
#[derive(Clone, Copy, Debug, PartialEq, Eq)]
pub enum PartKind {
    /// A frame of the match.
    Frame,
    /// The hash of the world after the frames so far.
    Mark(u64),
}
