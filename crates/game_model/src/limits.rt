/// The cash that each client begins with where no map says otherwise.
pub const BARE_CASH: u32 = 1_000;

/// The greatest cash of a client.
pub const MAX_CASH: u32 = 2_000_000_000;

/// The pace of an opening world: turns a frame.
pub const OPENING_PACE: u8 = 1;

/// The greatest pace: turns a frame. The least is 1.
pub const MAX_PACE: u8 = 8;

/// The greatest width and the greatest height of a map, in cells. The least is 1.
pub const MAX_SIDE: u8 = 128;

/// The greatest ore of a cell. The least is 0.
pub const MAX_ORE: u8 = 90;

/// The greatest number of actors of a world, and of starts of a map.
pub const MAX_ACTORS: usize = 2_048;

/// The most random words that a frame draws: one for each actor at each turn.
pub const MAX_DRAWS: u64 = 16_384;

/// The greatest number of builds of an actor.
pub const MAX_BUILDS: usize = 8;

/// How many steps in a row an actor waits for an occupied cell. At this many it gives up, so the
/// waits of an activity are below it.
pub const MAX_WAITS: u8 = 8;

/// The owner of an actor that belongs to no client.
pub const NEUTRAL: u8 = 255;
