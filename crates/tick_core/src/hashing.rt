/// How a game has its hash.
#[derive(Clone, Copy)]
pub(crate) enum Hashing {
    /// The numbers of its parts are kept from turn to turn, and the hash costs the head alone.
    Kept,
    /// Nothing is kept, and all parts are hashed when it is asked for.
    Asked,
}
