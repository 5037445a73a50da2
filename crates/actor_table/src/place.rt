/// Where an actor stands in the slab.
#[derive(Clone, Copy, Drop)]
pub(crate) struct Place {
    /// The actor's id.
    pub(crate) id: u32,
    /// Its key in the slab.
    pub(crate) key: usize,
}
