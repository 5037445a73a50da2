//! How a match stands at its host: when its clocks act, what is typed, and what the log says.
//!
//! [`MatchStanding`] takes note of what happens and of what is typed, and gives what the console gives
//! next; [`AwakeTime`] is the time that the clocks count, [`LogLine`] a line of the log. What a typed
//! line says is proved (`specs/Typed.antt`), and that a stop of the host's process counts half a second
//! in its clocks at most; when a clock acts, and what is logged, no clause says. The crate stands on
//! `game_io`.
#![tactic(auto)]

mod awake_time;
mod log_line;
mod match_standing;
mod typed;

pub use awake_time::{AwakeTime, MAX_STEP};
pub use log_line::LogLine;
pub use match_standing::{Given, InputEnd, KickedBy, MatchStanding, Said};
pub use typed::{LINE_END, LINE_ROOM, MAX_CLIENTS, Typed, kick_text, what_is_typed};
