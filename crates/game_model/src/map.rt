use crate::ore::Ore;
use crate::tiles::Tiles;
use base::List;
use world_units::{CPos, WAngle};

/// An actor that a map begins with.
#[derive(Clone, Copy, Debug, Drop)]
pub struct Start {
    /// The number of its kind, from 0.
    pub kind: u16,
    /// The client that owns it, or [`crate::NEUTRAL`]. It is neutral too in a match that has not
    /// this client.
    pub owner: u8,
    /// Where it stands.
    pub cell: CPos,
    /// Which way it faces.
    pub facing: WAngle,
}

/// The actors that a map begins with, in the map's order.
pub type StartList = List<Start>;

/// A map: its size, its ground, and what stands on it when a match begins.
pub struct Map {
    /// The number of columns, 1 to [`crate::MAX_SIDE`].
    pub width: u8,
    /// The number of rows, 1 to [`crate::MAX_SIDE`].
    pub height: u8,
    /// The terrain of each cell.
    pub terrain: Tiles,
    /// The ore of each cell at the start.
    pub ore: Ore,
    /// The actors at the start, at most [`crate::MAX_ACTORS`].
    pub starts: StartList,
    /// The cash of each client at the start, at most [`crate::MAX_CASH`].
    pub cash: u32,
}

// By hand, so that what drops one needs no proof of how its parts are dropped.
impl Drop for Map {
    fn drop(self) {
        let Self {
            width: _,
            height: _,
            terrain: _,
            ore: _,
            starts: _,
            cash: _,
        } = self;
    }
}
