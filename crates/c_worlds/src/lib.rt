//! The calls of the C library over setups and worlds: to read files, make and step worlds, and read
//! what a world, a peer or a server holds.
//!
//! Each call takes objects, and answers a code of `c_objects`. What it answers, what it holds then
//! and what it writes are functions of what the objects held and of the arguments, where memory
//! doesn't run out (`specs/`); where it does, nothing has changed. No call asks anything of its
//! caller but what the types say.
#![tactic(auto)]

mod actors;
mod fault_at;
mod ground;
mod heads;
mod held;
mod items;
mod kinds;
mod ore;
mod room;
mod routes;
mod setups;
mod sights;
mod worlds;

pub use actors::{CActor, read_actors};
pub use fault_at::CFault;
pub use ground::setup_terrain;
pub use heads::{CHead, read_head};
pub use held::{game_of, made_of};
pub use items::{CItem, read_items};
pub use kinds::{CKind, setup_kind, setup_kind_name};
pub use ore::read_ore;
pub use routes::{CCell, CRoute, RouteAsk, find_route};
pub use setups::{MAP, RULES, setup_add, setup_create, setup_read, setup_share};
pub use sights::seen;
pub use worlds::{read_frame, world_create, world_step};
