//! Legs, and steps towards a cell.
//!
//! An actor that moves holds the cell to which its leg leads, from the first step of the leg on.
//! [`advance_leg`] goes on with a leg. [`move_step`] is the step towards a cell that moves, attacks
//! and harvests share: the actor turns until it faces the next cell, sets out for it, or waits
//! where that cell is occupied. [`go_towards`] also keeps the activity that leads there, and
//! [`move_activity`] is the whole step of a Move.
//!
//! Each of these three has the router look at the ground first. Its form with `_on_current_ground`
//! in its name wants a router that looks at it already, and spares the comparison.
//!
//! Each call says in its clause exactly what it makes of the list of actors
//! (`game_tick/specs/Moving.antt`); none takes memory of its own or fails. A step takes logarithmic
//! time beside the search for a route.
#![tactic(auto)]

mod acts;
mod fields;
mod leg;
mod towards;

pub use acts::{go_on, pop_head, set_head};
pub use game_tick::Moving;
pub use leg::advance_leg;
pub use towards::{
    go_towards, go_towards_on_current_ground, move_activity, move_activity_on_current_ground,
    move_step, move_step_on_current_ground,
};
