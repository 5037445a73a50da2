/// The FNV-1a number of an actor's bytes, under its id.
#[derive(Clone, Copy, Debug, Drop)]
pub struct ActorNumber {
    /// The actor's id.
    pub(crate) id: u32,
    /// The number of its bytes.
    pub(crate) number: u64,
}
