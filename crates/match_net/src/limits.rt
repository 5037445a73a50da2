/// The most bytes that the server takes from one link.
pub const MAX_LINK_BYTES: usize = 67_108_864;

/// The most bytes that are taken from a link at once.
pub(crate) const PIECE_BYTES: usize = 1_024;

/// The most bytes that a player takes from its link.
pub const MAX_PLAY_BYTES: usize = 1_073_741_824;
