//! What the commands on replays answer, over the game of some rules and a map.
//!
//! [`replay_answer`] runs a replay's file, and [`migrate_answer`] writes it anew. Each is a step of
//! a command: it has the answer, or stops with the first fault of the file, with which
//! [`read_replay_file`] refuses it. The replies are in `specs/Replays.antt`. [`record_bytes`] makes
//! the file of a drill that was run (`specs/Records.antt`). [`MarkedGame`] is the game with the
//! hash that the marks of old replays have. [`read_save_file`] reads a save for every command that
//! has one, so that it is refused everywhere with the same line.
#![tactic(auto)]

mod marked_game;
mod reading;
mod records;
mod refusal;
mod replays;
mod save_reading;

pub use marked_game::MarkedGame;
pub use reading::read_replay_file;
pub use records::record_bytes;
pub use replays::{migrate_answer, replay_answer, replayed_answer};
pub use save_reading::read_save_file;
