use game_orders::Entry;

/// What a delivery answers. Only `Kept` changes the peer.
#[derive(Debug, Drop, PartialEq, Eq)]
pub enum Delivered {
    /// The entry was new, and is kept.
    Kept,
    /// The same entry is kept for that client and frame.
    Repeat,
    /// Another entry, this one, is kept for that client and frame.
    Conflict(Entry),
    /// The entry contradicts what is kept at this frame: a departure of the client before the
    /// entry, or, where the entry is a departure, the client's least kept frame after it.
    Past(u32),
    /// No match has such a frame.
    Beyond,
}
