use thiserror::Error;

/// Why a turn of an end stopped.
#[derive(Clone, Copy, Debug, PartialEq, Eq, Error)]
pub enum TurnFault {
    /// The post failed: its count of faults rose.
    #[error("the post failed")]
    Failed,
    /// Out of memory.
    #[error("out of memory")]
    NoMemory,
}
