use thiserror::Error;

/// Why a file wasn't read or written.
#[derive(Debug, PartialEq, Eq, Drop, Error)]
pub enum DiskError {
    /// No file has that name.
    #[error("no such file")]
    Missing,
    /// The disk failed, and its count of faults rose in the call.
    #[error("the disk failed")]
    Failed,
    /// The file has more bytes than the caller's limit.
    #[error("the file is too long")]
    TooLong,
    /// Out of memory.
    #[error("out of memory")]
    NoMemory,
}
