/// What two files may differ in.
#[derive(Clone, Copy)]
pub(crate) enum Subject {
    /// The number of frames.
    Frames,
    /// The turns so far.
    Tick,
    /// The seed.
    Seed,
    /// The random words drawn so far.
    Drawn,
    /// The id that the next new actor gets.
    Next,
    /// The turns that a frame runs.
    Pace,
    /// The number of clients.
    Clients,
    /// The cash of a client.
    Cash(u8),
    /// Whether a client has departed.
    Gone(u8),
    /// A field of an actor that both have, by the actor's id.
    Actor(u32, Field),
    /// The ore of a cell, by its column and its row.
    Ore(usize, usize),
    /// What a client did in a frame: the frame's number and the client's.
    Entry(u32, u8),
    /// The mark after so many frames.
    Mark(u32),
}

/// A field of an actor.
#[derive(Clone, Copy)]
pub(crate) enum Field {
    /// The number of its kind.
    Kind,
    /// The client that owns it.
    Owner,
    /// The cell that it holds.
    Cell,
    /// Which way it faces.
    Facing,
    /// The leg that it is on.
    Leg,
    /// Its hit points.
    Health,
    /// The bales of ore that it holds.
    Load,
    /// The turns until it can fire again.
    Reload,
    /// What it is doing.
    Acts,
    /// What it is to build.
    Builds,
}
