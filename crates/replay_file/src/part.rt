use game_orders::Frame;

/// One part of a replay, as clauses see it. Code has a [`PartKind`](crate::PartKind), beside the room
/// of a frame that serves part after part.
#[derive(Debug, Drop)]
pub enum Part {
    /// A frame of the match.
    Frame(Frame),
    /// The hash of the world after the frames so far.
    Mark(u64),
}
