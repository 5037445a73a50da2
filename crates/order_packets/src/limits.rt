/// The greatest length of a packet's payload, in bytes.
pub const MAX_PAYLOAD: u16 = 256;

/// The version of the packets, as a client's greeting has it.
pub const VERSION: u16 = 2;

/// Why a client is not in the match: its packets are of another version.
pub const OTHER_VERSION: u8 = 1;

/// Why a client is not in the match: its rules are others.
pub const OTHER_RULES: u8 = 2;

/// Why a client is not in the match: its first packet is no greeting.
pub const NO_HELLO: u8 = 3;
