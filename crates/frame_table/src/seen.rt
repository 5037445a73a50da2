/// How much of a column was seen.
#[derive(Clone, Copy, Debug, PartialEq, Eq)]
pub struct Seen {
    /// The number of plays, at most `MAX_FRAMES`.
    pub plays: u32,
    /// Whether the departure after them was seen.
    pub left: bool,
}
