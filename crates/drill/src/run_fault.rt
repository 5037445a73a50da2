use thiserror::Error;

/// Why a run of a drill stopped.
#[derive(Debug, Drop, Error)]
pub enum RunFault {
    /// A write failed: the sink's count of faults rose.
    #[error("a write failed")]
    Write,
    /// Out of memory.
    #[error("out of memory")]
    NoMemory,
}
