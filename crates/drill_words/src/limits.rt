/// The greatest number of events of a drill.
pub const MAX_EVENTS: u32 = 200_000;

/// The greatest length of a drill's file in bytes.
pub const MAX_DRILL_BYTES: u32 = 67_108_864;
