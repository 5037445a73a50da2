//! Bots of a game that a match runs.
//!
//! [`GameBots`] are `bots::Bots` over `tick_core::Game`: what they order is what
//! `bot_player::bot_orders` orders in the game's world, by what the game lends: [`GameActors`], which
//! shrouds follow too. No world is copied, and no memory is taken.
#![tactic(auto)]

mod game_actors;
mod game_bots;

pub use game_actors::GameActors;
pub use game_bots::GameBots;
