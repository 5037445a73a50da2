//! The command `worlds`: the worlds of a replay, as text.
//!
//! [`print_worlds`] reads a replay, plays it back over the game of some rules and a map, and prints
//! the kinds, the map, and the chosen worlds while they pass. The text, and when the file is
//! refused, is defined in `specs/Worlds.antt`. However long the replay is, beside it there is
//! one world and one piece of text at a time.
#![tactic(auto)]

mod chosen;
mod frames;
mod prepared;
mod setup_lines;
mod worlds;

pub use worlds::print_worlds;
