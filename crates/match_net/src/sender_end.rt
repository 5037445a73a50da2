/// How the sending to a link ended.
#[derive(Clone, Copy, Debug, PartialEq, Eq)]
pub enum SenderEnd {
    /// All that was to be sent was written.
    Sent,
    /// The link failed.
    Lost,
    /// Memory ran out.
    NoMemory,
}
