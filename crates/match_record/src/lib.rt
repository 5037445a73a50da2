//! The replay of a match, by its columns.
//!
//! [`record_bytes`] runs the agreed frames of the columns of a match that is over, and writes them,
//! each with a mark of the world after it. The replay is `replay_of` of `replay_run`, so what its
//! laws say holds of it.
#![tactic(auto)]

mod recording;

pub use recording::record_bytes;
