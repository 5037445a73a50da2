//! The world of the game as plain data.
//!
//! [`World`] is a record of numbers and lists: cash and a departure flag for each client of the
//! match, the actors by rising id, and the ore of each cell. A [`Map`] and rules are what a match
//! stands on. Here are the definitions that worlds are spoken of by: the opening world
//! (`specs/World.antt`), worlds as a match has them (`specs/ValidWorld.antt`), what kinds of actors
//! have (`specs/Kinds.antt`), walks and best directions. What orders and ticks make of a world
//! stands in `game_tick`, and the code that ticks it above.
#![tactic(auto)]

mod actor;
mod blocks;
mod builds;
mod copies;
mod ground;
mod law;
mod limits;
mod map;
mod ore;
mod terrain;
mod tiles;
mod world;

pub use actor::{Actor, ActorList, Body, Leg};
pub use blocks::Blocks;
pub use builds::{Build, Builds};
pub use copies::copy_actors;
pub use ground::Ground;
pub use law::starts_valid;
pub use limits::{
    BARE_CASH, MAX_ACTORS, MAX_BUILDS, MAX_CASH, MAX_DRAWS, MAX_ORE, MAX_PACE, MAX_SIDE, MAX_WAITS,
    NEUTRAL, OPENING_PACE,
};
pub use map::{Map, Start, StartList};
pub use ore::Ore;
pub use terrain::{Terrain, cost_on};
pub use tiles::Tiles;
pub use world::{Gone, Head, Purse, World};
