/// The first four bytes of a save, `LSSV`, as a number, the lowest byte first.
pub(crate) const MAGIC: u32 = 0x5653_534c;

/// The version of saves.
pub const VERSION: u16 = 1;

/// The place of the version in a save's bytes.
pub(crate) const VERSION_AT: u64 = 4;

/// The place of the rules number in a save's bytes.
pub(crate) const RULES_AT: u64 = 6;

/// The greatest length of a save of a map within `game_model`'s limits, in bytes.
pub const MAX_SAVE_LENGTH: usize = 333_950;

/// The greatest length of what stands before the actors of a save, in bytes.
pub(crate) const MAX_LENGTH_BEFORE_ACTORS: usize = 126;

/// The greatest length of an actor in a save, in bytes.
pub(crate) const MAX_ACTOR_LENGTH: usize = 155;
