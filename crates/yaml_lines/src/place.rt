/// A place in the files that were read.
#[derive(Clone, Copy, Debug, PartialEq, Eq)]
pub struct Place {
    /// The file's number, from 0 in the order given.
    pub file: u16,
    /// The line's number, from 1. Line 0 stands for "no line".
    pub line: u32,
}
