/// What a peer reports of its world.
#[derive(Clone, Copy, Debug, PartialEq, Eq)]
pub struct Report {
    /// The last frame that it ticked.
    pub frame: u32,
    /// The hash of its world after that frame.
    pub hash: u64,
}
