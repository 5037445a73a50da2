//! A match: what it stands on, and what comes of it.

/// A match, the last clients of which are bots.
pub(crate) struct MatchCase {
    pub(crate) rules: &'static str,
    pub(crate) map: &'static str,
    /// What the first clients play.
    pub(crate) script: &'static str,
    /// How many bots play beside them.
    pub(crate) bots: u8,
    /// The frames of the longest script.
    pub(crate) frames: u32,
    /// The hash of the last world.
    pub(crate) hash: u64,
    /// Its number of actors.
    pub(crate) actors: u32,
    /// The cash of each client in it.
    pub(crate) cash: &'static [u32],
}
