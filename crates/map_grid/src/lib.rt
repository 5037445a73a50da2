//! Maps, read from the resolved forest of a map file.
//!
//! [`read_map`] gives the map that a forest describes for rules, or the forest's first fault. The
//! answer is a function of the forest as plain trees and of the rules, in `specs/MapOf.antt`; it is
//! composed of the size and the cash (`specs/Fields.antt`), the rows of terrain and ore
//! (`specs/Rows.antt`) and the actors (`specs/Starts.antt`). A map that is read keeps what a match
//! stands on: cells within its size, starts of known kinds on distinct cells, numbers within their
//! limits.
#![tactic(auto)]

mod crowd;
mod fault;
mod fields;
mod reading;
mod rows;
mod sample;
mod starts;

pub use fault::MapFault;
pub use reading::read_map;
pub use sample::SAMPLE_MAP;
