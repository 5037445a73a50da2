//! Hashes by which worlds are compared.
//!
//! [`fnv`] is FNV-1a of 64 bits over any bytes (`specs/Fnv.antt`). A world is hashed as a list of
//! byte lists (`specs/HashedBytes.antt`): its header, each actor, and each cell with ore; each part
//! stands in one fixed order with one fixed width, the lowest byte first:
//!
//! | Part | Bytes |
//! |---|---|
//! | header: tick, seed | 4 each |
//! | drawn | 8 |
//! | next_id | 4 |
//! | pace, number of clients | 1 each |
//! | of each client: cash, gone (0 or 1) | 4, 1 |
//! | number of actors | 4 |
//! | actor: id, kind, owner | 4, 2, 1 |
//! | x, y, facing | 1, 1, 2 |
//! | leg: 0, or 1, direction, progress | 1, or 1, 1, 4 |
//! | health, load, reload | 4, 2, 2 |
//! | number of activities | 1 |
//! | each: 1 Move x, y, waits | 1 each |
//! | 2 Attack target, waits | 1, 4, 1 |
//! | 3 Harvest or 4 Deliver x, y, timer, waits | 1, 1, 1, 2, 1 |
//! | number of builds | 1 |
//! | each: kind, left | 2 each |
//! | cell with ore: x, y, ore | 1 each |
//!
//! The hash is the sum of the numbers of all these lists, modulo 2^64. [`world_hash`] computes it
//! from nothing, and [`world_hash_1`] that of the first version, whose header has no pace. A
//! [`Hasher`] keeps the number of each actor and each cell, is told of what changed alone, and
//! gives the same hash at the cost of the header. The bytes are fed to the hash field by field, so
//! that no call but [`Hasher::create`] takes memory.
#![tactic(auto)]

mod actor_bytes;
mod actor_number;
mod actor_numbers;
mod fits;
mod fnv_state;
mod hasher;
mod header;
mod law;
mod ore_bytes;
mod whole_world;

pub use actor_bytes::actor_number as number_of_actor;
pub use fits::world_fits;
pub use fnv_state::fnv;
pub use hasher::Hasher;
pub use law::{
    bytes_tell_the_world, kept_numbers_give_the_hash, parts_tell_the_world_in_any_order,
};
pub use whole_world::{lent_hash, lent_hash_1, world_hash, world_hash_1};
