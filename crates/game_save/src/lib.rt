//! Saves: the world of a match after some of its frames, as bytes.
//!
//! A save has one spelling (`specs/SaveBytes.antt`), numbers with the lowest byte first, and the
//! values of a world as `sync_hash` hashes them:
//!
//! | Part | Bytes |
//! |---|---|
//! | `LSSV` | 4 |
//! | version, rules number, frames | 2, 8, 4 |
//! | width, height | 1 each |
//! | the header of the world | 26, and 5 for each client |
//! | each actor, by rising id | 22 to 155 |
//! | the ore of each cell, row by row | 1 each |
//!
//! [`write_save`] writes the save of a valid world, and [`write_lent_save`] that of a world that is
//! lent part by part ([`LendsWorld`]), so a game needs no copy of its world. [`read_save`] reads it
//! for given rules and a map, and answers a valid world, or the first fault of the bytes with its
//! place, by the definitions in `specs/ReadSave.antt`, `specs/WorldReading.antt` and
//! `specs/ActorReading.antt`: a value that no valid world has with the fields before it is refused
//! at its field. Memory is taken for actors that were read alone, and for the cells of the map.
#![tactic(auto)]

mod act_reading;
mod actor_reading;
mod actor_writing;
mod body_reading;
mod build_reading;
mod clients;
mod crew;
mod head_reading;
mod kinds;
mod law;
mod lends_world;
mod limits;
mod ore_reading;
mod save_cursor;
mod save_fault;
mod save_reading;
mod save_writing;
mod saved;

pub use law::{a_save_is_read_back, a_save_tells_the_world};
pub use lends_world::LendsWorld;
pub use limits::{MAX_SAVE_LENGTH, VERSION};
pub use save_fault::SaveFault;
pub use save_reading::read_save;
pub use save_writing::{write_lent_save, write_save};
pub use saved::Saved;
