//! The value forms of rule files: numbers, distances, cells and lists of names.
//!
//! Stands on `base` for numbers and on `yaml_lines` for blanks. Each reader answers a value exactly
//! where the text has its form, and the value is that of the form. No call takes memory.
#![tactic(auto)]

mod cell;
mod lists;
mod name_list;
mod number;
mod parts;

pub use cell::read_cell;
pub use lists::names;
pub use name_list::Names;
pub use number::{read_dist, read_number};
