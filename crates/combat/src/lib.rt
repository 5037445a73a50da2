//! The step of an attack.
//!
//! [`attack_step`] is what an actor does in a turn whose first activity is an Attack: it fires at a
//! target within range once it is loaded, and else goes towards it. Each shot draws exactly one
//! random word, and nothing else does. [`attack_step_on_current_ground`] wants a router that looks
//! at the ground already. What it makes of the actors and of the dice stands in
//! `game_tick/specs/Attacking.antt`. It takes no memory of its own and can't fail; it takes
//! logarithmic time beside the search for a route.
#![tactic(auto)]

mod attack;
mod fields;
mod shot;

pub use attack::{attack_step, attack_step_on_current_ground};
