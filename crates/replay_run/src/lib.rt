//! Replays of matches: recorded, run again, and brought to the version that is written.
//!
//! [`record_of`] writes the replay of the frames that a server ticked, with a mark after each.
//! [`run_replay`] runs the frames of a replay over an opening world, and finds the mark with the
//! fewest frames before it that differs from the world there; [`run_replay_from`] does so from a
//! frame on, over the world there. A [`ReplayStepper`] owns a replay and runs it one frame at a
//! time. [`migrate`] runs a whole replay and writes it anew, with the marks of the version that is
//! written. A [`Playback`] shows the world after each frame, and compares no marks; [`world_after`]
//! gives that after so many. All go over the frames once and keep one world.
//!
//! What they answer is in `specs/Recording.antt`, `specs/Rerun.antt` and `specs/Stepping.antt`, for
//! any world that has the hash of the first version too ([`FirstHash`]), and in
//! `specs/Playing.antt` for any world; what is printed is in `specs/Shown.antt`. Laws say that a
//! record has no differing mark and gives the server's world, that a migrated replay gives what the
//! old one gives, and that a run from a frame on gives what the whole run gives (`src/laws.rt`).
#![tactic(auto)]

mod difference;
mod first_hash;
mod frames;
mod laws;
mod migration;
mod playback;
mod recording;
mod replay_stepper;
mod replayed;
mod rerun;
mod text;

pub use difference::Difference;
pub use first_hash::FirstHash;
pub use frames::frame_count;
pub use laws::{
    a_migrated_replay_gives_the_same, a_record_gives_the_match, a_resumed_run_gives_the_same,
    the_least_mark_differs,
};
pub use migration::{Migration, migrate};
pub use playback::{Playback, world_after};
pub use recording::record_of;
pub use replay_stepper::ReplayStepper;
pub use replayed::Replayed;
pub use rerun::{run_replay, run_replay_from};
pub use text::{migrated_text, refused_text, replay_text};
