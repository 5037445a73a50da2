use game_orders::Entry;

/// What a put into a column answers. Only `Fixed` changes the column.
#[derive(Debug, Drop, PartialEq, Eq)]
pub enum Put {
    /// The entry was added at its frame.
    Fixed,
    /// The same entry stands at the frame.
    Repeat,
    /// Another entry, this one, stands at the frame.
    Conflict(Entry),
    /// The client left at this frame, before the entry's.
    Left(u32),
    /// The column has only this many plays, and the entry's frame is above that.
    Ahead(u32),
    /// The column has all the plays that a match may have.
    Full,
}
