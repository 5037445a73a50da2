//! What each client of a match sees, and what it has explored.
//!
//! A [`Shroud`] follows a match: it is told the actors of the opening world and of the world after
//! each frame, and then says of each cell whether a client sees it now and whether it ever saw it.
//! A client sees the cells that a living actor of its own, of a kind with `RevealsShroud`, has
//! within its range (`specs/Sights.antt`); it has explored what it saw in one of the worlds so far
//! (`specs/Explored.antt`). Contracts see a shroud as two grids for each client, of the cells that
//! it sees and of those that it has explored (`specs/ShroudState.antt`), whatever it counts.
//!
//! It keeps how many actors see each cell, and of each actor what decides which cells these are. An
//! update compares each actor with what is kept of it. One that is unchanged costs that comparison
//! alone; of any other the cells that it saw are taken back, and those that it sees are counted.
//!
//! [`Shroud::update`] takes a world. [`Shroud::update_from`] takes whatever lends its actors
//! ([`LendsActors`]), so a game needs no copy of its world.
#![tactic(auto)]

mod disc;
mod law;
mod lends_actors;
mod shroud;
mod spot;
mod spots;
mod tally;
mod viewer;
mod viewers;

pub use law::follows_all_worlds;
pub use lends_actors::LendsActors;
pub use shroud::Shroud;
