//! The game that a match runs: a world that is stepped by frames.
//!
//! [`Game`] is a `frame_core::Sim` over `game_model::World`, and [`GameMaker`] makes its opening
//! over the rules and the map of a match, or a game that goes on from a world and its count of
//! frames. One step is one tick of the definitions in `game_tick`
//! (`specs/Tick.antt` there). The world is held part by part: its head as plain numbers, its actors
//! in a table, its ore, the cells of its buildings, routes, dice, and the numbers of which its hash
//! is made; a step tells the hasher of what it may change alone (with a Harvest, of the ore of its
//! cell at each step), so that the hash costs the header. Games whose hash is seldom asked for may
//! keep no numbers ([`GameMaker::without_kept_hashes`]). Contracts see a game as its setup, its
//! world and its count of steps (`specs/Game.antt`).
#![tactic(auto)]

mod acting;
mod activity_orders;
mod blocks;
mod burial;
mod departures;
mod game;
mod hashing;
mod live_world;
mod maker;
mod opening;
mod orders;
mod preview;
mod scene;
mod summing;
mod tick;
mod turn;

pub use game::Game;
pub use maker::{GameMaker, bare_map};
