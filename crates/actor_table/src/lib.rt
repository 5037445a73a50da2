//! The actors of a world, for a tick that reads and changes them one by one.
//!
//! [`ActorTable`] is seen as the list of actors by rising id, with the size of the map. Each actor
//! stays where it is in a slab; its id, the cell that it holds, and its place in the order are
//! found beside it. All memory is taken by [`ActorTable::create`] or [`ActorTable::filled`]: no
//! other call takes any, but for a copy of the actors.
#![tactic(auto)]

mod cell_index;
mod idle_marks;
mod kind_index;
mod listed;
mod order;
mod place;
mod roster;
mod table;

pub use listed::Listed;
pub use table::ActorTable;
