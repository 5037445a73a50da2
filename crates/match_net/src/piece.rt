/// What came of taking one piece from a link.
#[derive(Clone, Copy)]
pub enum Piece {
    /// At least one byte, which the feeder now has.
    Some,
    /// The end of the bytes.
    End,
    /// A failure of the link.
    Lost,
}
