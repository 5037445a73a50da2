use frame_core::Sim;
use frame_table::{FrameTable, Pass};

/// A local match that has ended.
#[derive(Drop)]
pub struct LocalRun<S: Sim> {
    /// The world after the last frame.
    pub sim: S,
    /// The table that the match filled.
    pub table: FrameTable,
    /// A pass of this table, with the whole share.
    pub pass: Pass,
}
