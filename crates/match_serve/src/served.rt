use crate::link_end::LinkEnd;
use base::List;
use frame_core::Sim;
use frame_table::{FrameTable, Pass};
use server_core::Board;

/// A match that was served over links.
#[derive(Drop)]
pub struct Served<S: Sim> {
    /// The world after the last frame.
    pub sim: S,
    /// The table that the links filled.
    pub table: FrameTable,
    /// A pass of this table, with the whole share.
    pub pass: Pass,
    /// The reports of the clients, and the hashes of the world.
    pub board: Board,
    /// How each link ended, by client.
    pub ends: List<LinkEnd>,
    /// How many bytes were taken from each link, by client.
    pub taken: List<u64>,
}
