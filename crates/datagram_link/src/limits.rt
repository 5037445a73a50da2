/// The most bytes of a payload, that of the longest packet.
pub const MAX_PAYLOAD: u16 = 258;

/// The most payloads that are unacknowledged at once, and the places of a receiver's window.
pub const WINDOW: u32 = 64;

/// How many payloads a link carries in its life, and the number that no payload has.
pub const MAX_PAYLOADS: u32 = 4_294_967_295;

/// The most bytes of a datagram: those of the longest payload, and seven before them.
pub const MAX_DATAGRAM: usize = 265;

/// The room for a datagram that is received: one byte more than the longest has.
pub const RECEIVE_ROOM: usize = 266;
