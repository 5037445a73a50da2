/// The greatest number of clients of one match. There is at least 1.
pub const MAX_CLIENTS: u8 = 16;

/// The greatest number of frames that a client plays. Frames are numbered from 0.
pub const MAX_FRAMES: u32 = 262_144;

/// The greatest lag. A lag, 1 to this many frames, is how far a client may seal ahead of its ticked
/// frames (the command delay of other engines).
pub const MAX_LAG: u8 = 64;

/// The greatest number of orders of one client for one frame.
pub const MAX_ORDERS: u8 = 16;

/// The room of a list with one element for each client.
pub(crate) const PER_CLIENT_ROOM: usize = MAX_CLIENTS as usize;

/// The room of an [`crate::Orders`].
pub(crate) const ORDERS_ROOM: usize = MAX_ORDERS as usize;
