/// The answer to a report. Only `Kept` changes the board.
#[derive(Clone, Copy, Debug, PartialEq, Eq)]
pub enum Reported {
    /// The report is the client's first on the frame, and is kept.
    Kept,
    /// A report of the client on the frame is kept, and stays.
    Repeat,
    /// No match has such a frame: its number is `MAX_FRAMES` or more.
    Beyond,
}
