/// The command is done.
pub const DONE: u8 = 0;

/// The words are refused.
pub const REFUSED_WORDS: u8 = 2;

/// A file is missing, too long, or has a fault.
pub const REFUSED_FILE: u8 = 3;

/// A read failed.
pub const FAULT_READ: u8 = 4;

/// A write failed.
pub const FAULT_WRITE: u8 = 5;

/// Out of memory.
pub const OUT_OF_MEMORY: u8 = 6;

/// A mark differs from the hash of the world after its frames, or two files that are compared
/// differ.
pub const MARK_DIFFERS: u8 = 7;
