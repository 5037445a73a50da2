/// Why printing ended early.
#[derive(Clone, Copy, Debug, PartialEq, Eq)]
pub enum PrintFault {
    /// A write failed: the sink's count of faults rose.
    Write,
    /// Out of memory.
    NoMemory,
}
