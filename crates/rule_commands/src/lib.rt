//! Rule files and maps as typed values, and the texts of the commands `yaml`, `check` and `route`.
//!
//! [`read_typed`] and [`read_map_bytes`] go from the bytes of files to rules and to a map for them,
//! or to the refusal of their first fault (`specs/Maps.antt`); every command over rules and a map
//! begins so. [`read_setup`] and [`read_maker`] return what a match stands on, where rules and map
//! may also be missing (`specs/Setups.antt`). [`read_numbered_maker`] returns with it the number by
//! which replays and players know its rules and its map (`specs/Numbers.antt`). [`yaml_text`],
//! [`check_text`] and [`route_text`] make the texts of these commands (`specs/RuleFiles.antt`,
//! `specs/Checks.antt`, `specs/Routes.antt`).
//! [`sample_has_no_fault`] is a law of the sample that the program has built in.
#![tactic(auto)]

mod check;
mod numbers;
mod refusals;
mod route_fault;
mod routes;
mod rules;
mod sample;
mod setups;

pub use check::check_text;
pub use numbers::read_numbered_maker;
pub use refusals::{line_stop, map_stop, merge_stop, name_at, rule_stop};
pub use route_fault::{RouteFault, route_stop};
pub use routes::route_text;
pub use rules::{read_map_bytes, read_typed, yaml_text};
pub use sample::sample_has_no_fault;
pub use setups::{read_maker, read_setup};
