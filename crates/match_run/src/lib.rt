//! A match on one machine, on threads.
//!
//! [`run_with_bots`] plays the scripts of a match, and bots beside them. One thread for each
//! script's client puts the client's plays into the shared columns of a `frame_table` and lets the
//! client leave after the last; the calling thread ticks every frame that is ready until the match
//! is over, and puts what each of the [`Bots`] orders in the world as it is before the frame. The
//! scripts' columns are planned, and the bots' follow from the worlds, so the world at the end is
//! determined whatever the schedule: the one that was given, stepped by the frames of all these
//! columns (`specs/Bots.antt`). What the passes know on the way is in `specs/Passes.antt` and
//! `specs/Feeding.antt`. The crate stands on `frame_table` for the columns, on `drill_words` for
//! `Scripts`, and on `game_io` for the gate by which a test holds threads.
#![tactic(auto)]

mod client_pass;
mod feeding;
mod frames;
mod idle_bots;
mod law;
mod local_run;
mod passing;
mod playing;
mod running;
mod taken;
mod ticking;

pub use bots::Bots;
pub use frames::{frames_of, longest};
pub use idle_bots::IdleBots;
pub use law::closed_columns_are_those;
pub use local_run::LocalRun;
pub use running::{run_local, run_with_bots};
