/// A mark that differs from the hash of the world after its frames.
#[derive(Clone, Copy, Debug, PartialEq, Eq)]
pub struct Difference {
    /// The number of frames before the mark.
    pub frames: u32,
    /// The hash in the file.
    pub file: u64,
    /// The hash of the world here.
    pub here: u64,
}
