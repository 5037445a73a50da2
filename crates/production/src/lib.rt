//! Production: what the first build of an actor makes of the actors in a turn, and the orders that
//! add builds and take them back.
//!
//! A build takes its turns, and then its unit comes out into the neighbour cell of the least
//! direction that its kind can enter and nobody holds. Nothing here takes memory.
#![tactic(auto)]

mod building;
mod exit;
mod give;
mod needs;
mod orders;

pub use building::build_step;
pub use orders::{cancel, own_of, pay, produce};
