use arrayvec::ArrayVec;

/// A line of the console ends with it.
pub(crate) const LINE_END: u8 = 10;

/// Room for the longest line that kicks, and one more byte.
pub(crate) const LINE_ROOM: usize = 8;

/// What was read of the console: of the line so far as much as there is room for, and which clients
/// were kicked.
#[derive(Drop)]
pub(crate) struct Kicks {
    pub line: ArrayVec<u8, LINE_ROOM>,
    pub kicked: Vec<bool>,
}
