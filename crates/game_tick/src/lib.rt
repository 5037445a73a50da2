//! What a tick of the game is, as definitions.
//!
//! Here is no code that ticks: `specs/` says what each step of an actor, each order and each turn
//! makes of a world, and the crates above are proved against it. [`Moving`] is the answer that
//! steps towards a cell share.
#![tactic(auto)]

mod law;
mod limits;
mod moving;
mod step_law;

pub use law::{
    dead_make_no_step, draws_are_shots, orders_change_one_part, orders_change_only_own,
    orders_keep, orders_valid, steps_keep, steps_keep_actors, steps_keep_blocks,
    steps_keep_mid_turn, ticks_count_turns, ticks_keep, ticks_valid, turns_bury_the_dead,
    turns_make_no_ore, valid_worlds_are_in_mid_turn,
};
pub use limits::LAST_ID;
pub use moving::Moving;
pub use step_law::{idle_actors_stay, moves_keep_apart};
