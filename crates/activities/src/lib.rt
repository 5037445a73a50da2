//! What an actor is doing: an activity, and the queue of those that it is to do.
//!
//! The queue holds at most 16 activities in place, by a vector of fixed capacity, so no call takes
//! memory. Contracts see it as the list of its activities, the one at work first.
#![tactic(auto)]

mod activity;
mod queue;

pub use activity::Activity;
pub use queue::{MAX_ACTIVITIES, Queue};
