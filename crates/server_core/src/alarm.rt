/// The least frame for which a client's kept report differs from the hash of the server's world
/// after it.
#[derive(Clone, Copy, Debug, PartialEq, Eq)]
pub struct Alarm {
    /// The frame, below `MAX_FRAMES`.
    pub frame: u32,
    /// The hash that was reported in the client's name.
    pub got: u64,
    /// The hash of the server's world, which differs.
    pub want: u64,
}
