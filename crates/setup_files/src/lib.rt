//! What a match stands on, read from the bytes of files that have no names.
//!
//! [`read_files`] goes from the bytes of rule files and of a map to a maker of worlds and the
//! number by which replays and players know its rules and its map, or to the first fault with its
//! place (`specs/Reading.antt`): those of the rules come before those of the map, and in either
//! those in lines before those in merging, and these before those in traits or in the map. Rules
//! are read as the files of one match, a map as its own only file.
//!
//! A [`Stage`] keeps the files, takes them one by one, and then what they make
//! (`specs/Stage.antt`). It can be read again into one that shares nothing with it.
#![tactic(auto)]

mod limits;
mod making;
mod numbers;
mod reading;
mod setup_fault;
mod stage;

pub use limits::MAX_RULE_FILES;
pub use making::{Made, read_files};
pub use numbers::rules_number;
pub use setup_fault::{Part, SetupFault};
pub use stage::Stage;
