//! The step of a harvester.
//!
//! [`harvest_step`] is what an actor does in a turn whose first activity is a Harvest or a Deliver:
//! it goes to a cell with ore, loads bale after bale, goes to a refinery, and unloads for cash.
//! What it makes of the actors, the ore and the cash stands in `game_tick/specs/Harvesting.antt`.
//! [`harvest_step_on_current_ground`] wants a router that looks at the ground already.
//! [`nearest_ore`] and [`nearest_refinery`] say where it goes. Nothing here takes memory or fails.
#![tactic(auto)]

mod deliver;
mod fields;
mod harvest;
mod load;
mod refinery;
mod search;
mod steps;

pub use refinery::nearest_refinery;
pub use search::nearest_ore;
pub use steps::{harvest_step, harvest_step_on_current_ground};
