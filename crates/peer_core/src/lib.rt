//! One client of a match: the agreed entries that reached it, and its world.
//!
//! A [`Peer`] seals its own frames ahead of its ticked ones, no further than its lag, and gets
//! the agreed entries of all clients in any order, also early or more than once. It ticks a frame
//! exactly when each client's play for it, or a departure at or before it, has reached it; its
//! own play counts once it has come back. What a peer has for a frame is read from what has
//! arrived as a server reads it from its columns (`specs/Arrived.antt`). So where all that was
//! delivered stands in the columns, a world that ticked `n` frames is the agreed world of `n`
//! frames (`specs/Faithful.antt`).
#![tactic(auto)]

mod arrived;
mod client_entries;
mod delivered;
mod held_orders;
mod inbox;
mod peer;
mod plays;
mod receipt;
mod report;
mod seal_fault;
mod stored_orders;

pub use arrived::Arrived;
pub use delivered::Delivered;
pub use peer::Peer;
pub use receipt::Receipt;
pub use report::Report;
pub use seal_fault::SealFault;
