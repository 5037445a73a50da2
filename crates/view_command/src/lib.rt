//! What the command `view` answers: what a client sees after a replay, and what it has explored in
//! its course.
//!
//! [`view_answer`] runs the replay's frames over the game of some rules and a map, and lets a
//! `shroud::Shroud` follow it from the opening world on, after each frame. Beside the replay, as
//! `replay` keeps it, it keeps one world, of which the shroud is lent the actors. The reply is in
//! `specs/Views.antt`, its lines in `specs/ViewText.antt`.
#![tactic(auto)]

mod text;
mod views;

pub use views::view_answer;
