/// The frames after which the first world is printed, where none are given.
pub const DEFAULT_FROM: u32 = 0;

/// How many frames worlds are apart, where it is not given.
pub const DEFAULT_EVERY: u32 = 1;

/// Which worlds of a replay are asked for, by the frames of it that were run before.
#[derive(Clone, Copy, Debug)]
pub struct WorldRange {
    /// The frames before the first one.
    pub from: u32,

    /// The most frames before any of them; those of the replay, if none are given.
    pub to: Option<u32>,

    /// How many frames they are apart, at least 1.
    pub every: u32,
}
