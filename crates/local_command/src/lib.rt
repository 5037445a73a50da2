//! The command `local`: a match that is played on threads of one machine.
//!
//! [`local_text`] plays a script to its end, over games of a maker, with as many bots beside it as
//! are asked for, and makes the text of the command: the columns and the world at the end, which
//! are a function of the script, the rules and the map, whatever the schedule
//! (`specs/LocalText.antt`).
#![tactic(auto)]

mod local;

pub use local::local_text;
