//! The frames that a match agrees on.
//!
//! The server has one column of entries for each client: the client's plays, frame by frame, then
//! perhaps its departure. A frame is ready once each client has a play at it or has left at or
//! before it. [`Columns`] keeps the columns; [`Sim`] is any world that is stepped by such frames
//! ([`Tally`] the least), and [`Maker`] makes its opening. The agreed world after `n` frames is the
//! fold of the world's step over the frames 0 to `n - 1` (`specs/World.antt`), and a column that
//! grows changes no frame that was ready (`specs/Grows.antt`).
#![tactic(auto)]

mod column;
mod columns;
mod input;
mod inputs;
mod leaving;
mod maker;
mod play_list;
mod play_part;
mod put;
mod ready;
mod sim;
mod stored_plays;
mod summary;
mod tally;
mod tick_answer;

pub use columns::Columns;
pub use input::Input;
pub use inputs::{Inputs, ready_by};
pub use leaving::Leaving;
pub use maker::Maker;
pub use play_list::PlayList;
pub use put::Put;
pub use ready::Ready;
pub use sim::{MAX_STEPS, Sim};
pub use summary::Summary;
pub use tally::Tally;
pub use tick_answer::TickAnswer;
