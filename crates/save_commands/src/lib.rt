//! What the commands on saves answer, over the game of some rules and a map.
//!
//! [`save_answer`] runs the first frames of a replay's file and writes the save of the world there,
//! spelled from what the game lends; [`continue_answer`] goes on from a save's file with the later
//! frames of a replay, and answers what `replay` answers. Each is a step of a command: it has the
//! answer, or stops with the first fault of a file, or where save and replay don't fit each other.
//! The replies are in `specs/Saves.antt`, the refusals in `specs/Refusals.antt`.
//!
//! What was saved goes on as the match did: `save_answer` promises of the save that it writes what
//! `continue` answers of it (`Continues` in `specs/Continuing.antt`).
#![tactic(auto)]

mod continuing;
mod fitting;
mod game_world;
mod saves;
mod text;

pub use continuing::continue_answer;
pub use saves::save_answer;
