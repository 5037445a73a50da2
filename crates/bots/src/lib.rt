//! Clients of a match that play by a rule, over any world.
//!
//! [`Bots`] is what a match asks for the orders of such a client. They are a function of the world
//! and the client, so whoever has the same world makes the same orders.
#![tactic(auto)]

mod bots;

pub use bots::Bots;
