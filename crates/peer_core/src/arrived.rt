use game_orders::Entry;

/// An agreed entry that has arrived, with its place. A peer is seen as the list of those that
/// reached it, by rising client and then by rising frame; it is stored client by client.
#[derive(Debug, Drop, PartialEq, Eq)]
pub struct Arrived {
    /// The client whose entry it is, below the clients of the match.
    pub client: u8,
    /// The frame at which it stands: below `MAX_FRAMES` for a play, at most that for a departure.
    pub frame: u32,
    /// The play or the departure.
    pub entry: Entry,
}
