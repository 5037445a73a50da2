use game_orders::MAX_CLIENTS;

/// The first four bytes of a replay, `LSRP`, as a number, the lowest byte first.
pub(crate) const MAGIC: u32 = 0x5052_534c;

/// The version of replays that are written.
pub const VERSION: u16 = 2;

/// The first version, which is still read: with fewer clients and frames, without the order Pace,
/// and with marks by a hash of its own, without the pace.
pub const FIRST_VERSION: u16 = 1;

/// The greatest number of clients in the first version.
pub const FIRST_MAX_CLIENTS: u8 = 8;

/// The greatest number of frames in the first version.
pub const FIRST_MAX_FRAMES: u32 = 65_536;

/// The greatest tag of an order in the first version: all but Pace.
pub(crate) const FIRST_GREATEST_TAG: u8 = 7;

/// The greatest tag of an order, that of Pace.
pub const GREATEST_TAG: u8 = 8;

/// The place of the version in a replay's bytes.
pub(crate) const VERSION_AT: u64 = 4;

/// The place of the rules number in a replay's bytes.
pub(crate) const RULES_AT: u64 = 6;

/// The place of the number of clients in a replay's bytes.
pub(crate) const CLIENTS_AT: u64 = 18;

/// The room for one flag for each client.
pub(crate) const CLIENT_ROOM: usize = MAX_CLIENTS as usize;
