/// The fault of the first word of a line that doesn't fit.
#[derive(Clone, Copy, Debug, PartialEq, Eq)]
pub enum WordFault {
    /// The word is unknown, missing or too many.
    BadWord,
    /// The word stands in a number's place and is no number, or is out of its range.
    BadNumber,
    /// The word is a number in a client's place, and isn't below the number of clients.
    NoSuchClient,
    /// The word begins one order more than a client may seal for one frame.
    TooManyOrders,
}
