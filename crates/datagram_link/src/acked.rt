/// The answer to an acknowledgement.
#[derive(Clone, Copy, Debug, PartialEq, Eq)]
pub enum Acked {
    /// So many payloads more were acknowledged.
    Freed(u32),
    /// It tells nothing new.
    Old,
    /// It acknowledges a payload that was not offered.
    Unsent,
}
