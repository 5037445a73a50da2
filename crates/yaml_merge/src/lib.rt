//! Merging the forests of several MiniYaml files, and resolving what their nodes inherit and
//! remove.
//!
//! `resolve` gives the resolved forest, or the first fault in the order of resolving, with its
//! place. Its definition is a recursion on ordered trees that resolves a parent anew each time it
//! is inherited.
#![tactic(auto)]

mod distinct;
mod fault;
mod files;
mod growing_list;
mod hashers;
mod index;
mod keeping;
mod keyed_list;
mod laws;
mod merging;
mod plain;
mod removing;
mod resolved;
mod resolving;
mod scene;
mod settled;
mod sizes;
mod steps;
mod stop;
mod walked;

pub use fault::MergeFault;
pub use files::resolve;
pub use laws::{plain_is_merged, removals_remove, settled_stays, values_win};
pub use settled::resolve_file;

/// The most names of a path of parents, the top-level node's own name among them.
pub const MAX_PATH: usize = 64;

/// The most nodes, at all depths, of a list that is being resolved.
pub const MAX_LIST_NODES: usize = 262_144;

/// The most nodes, at all depths, of the resolved forest before the removals at its top level.
pub const MAX_FOREST_NODES: usize = 2_097_152;

/// The most nodes, at all depths, of all resolved top-level nodes that are kept at a time. More of
/// them than `MAX_FOREST_NODES` are never in a resolved forest, so only what is refused anyway can
/// come to this limit. It is then refused with `NoMemory`.
const MAX_KEPT_NODES: usize = 8_388_608;
