use base::NoMemory;
use std::alloc::AllocFailed;

/// Why no further case is read.
#[derive(Debug, Drop)]
pub enum ReadFault {
    /// The bytes are no case.
    NoCase,
    /// Out of memory.
    NoMemory,
}

impl From<NoMemory> for ReadFault {
    fn from(_error: NoMemory) -> Self {
        ReadFault::NoMemory
    }
}

impl<T: Drop> From<AllocFailed<T>> for ReadFault {
    fn from(_error: AllocFailed<T>) -> Self {
        ReadFault::NoMemory
    }
}
