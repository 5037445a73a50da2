//! Pauses of a thread that looks again and again at what other threads do.
//!
//! A [`Pause`] first lets other threads run, and once many looks in a row have found nothing it
//! sleeps a little. So a thread that has something to do loses no time, and one that waits for a
//! player on a link takes no processor from the others. How long a pause lasts is not promised.
#![tactic(auto)]

mod pause;

pub use pause::{NAP_MICROS, Pause, SPINS_BEFORE_SLEEP};
