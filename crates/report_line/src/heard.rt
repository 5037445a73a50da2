/// A report as it came over a link: what a client says of its world.
#[derive(Clone, Copy, Debug, PartialEq, Eq)]
pub struct Heard {
    /// The client over whose link it came.
    pub client: u8,
    /// The last frame that the client ticked, as it says: any `u32`.
    pub frame: u32,
    /// The hash of its world after that frame, as it says: any `u64`.
    pub hash: u64,
}
