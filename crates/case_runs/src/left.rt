use game_io::{MemDisk, MemNet, MemSink};

/// What the run of a case left.
#[derive(Drop)]
pub struct Left {
    /// The status that was answered.
    pub status: u8,
    /// What was printed.
    pub out: MemSink,
    /// The disk after the run.
    pub disk: MemDisk,
    /// The net after the run.
    pub net: MemNet,
}
