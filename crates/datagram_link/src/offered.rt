/// The answer to a payload that is offered.
#[derive(Clone, Copy, Debug, PartialEq, Eq)]
pub enum Offered {
    /// It was taken, and has this number.
    Taken(u32),
    /// [`crate::WINDOW`] payloads are unacknowledged: offer it again later.
    WindowFull,
    /// The link has carried [`crate::MAX_PAYLOADS`] payloads, and takes no more.
    Spent,
}
