/// It is done.
pub const OK: u32 = 0;

/// The same is there already.
pub const REPEAT: u32 = 1;

/// There is none.
pub const NONE: u32 = 2;

/// Something has to come first.
pub const NOT_YET: u32 = 3;

/// The match has ended.
pub const OVER: u32 = 4;

/// The peer has sealed as far ahead as it may.
pub const TOO_EARLY: u32 = 5;

/// The client has left.
pub const LEFT: u32 = 6;

/// No match has such a frame.
pub const NO_FRAME: u32 = 8;

/// Entries before this one are missing.
pub const AHEAD: u32 = 9;

/// Another entry is there already.
pub const CONFLICT: u32 = 10;

/// A departure that is there, or entries that are there, contradict this one.
pub const PAST: u32 = 11;

/// There is no room for more in a match or a setup.
pub const FULL: u32 = 12;

/// The packet changes nothing here.
pub const IGNORED: u32 = 13;

/// The other side refuses, or is to be refused.
pub const REFUSED: u32 = 14;

/// The bytes spell nothing that the call takes.
pub const BAD_BYTES: u32 = 32;

/// The files have a fault.
pub const FAULT: u32 = 33;

/// A number is outside its range.
pub const BAD_ARGUMENT: u32 = 34;

/// An object is not of the kind that the call takes, or is empty, or is not empty.
pub const WRONG_OBJECT: u32 = 35;

/// The array of the caller is too short.
pub const NO_ROOM: u32 = 36;

/// Out of memory.
pub const NO_MEMORY: u32 = 37;
