/// The header of a replay.
#[derive(Clone, Copy, Debug)]
pub struct Header {
    /// The version.
    pub(crate) version: u16,
    /// The rules number.
    pub(crate) rules: u64,
    /// The seed.
    pub(crate) seed: u32,
    /// The number of clients.
    pub(crate) clients: u8,
}
