ghost use Rattle.std.specs.Prelude.{◌≡◌, ◌+◌, ◌≤◌, ◌%◌, ◌^◌, length};
ghost use Rattle.std.specs.List.{sum_by};
ghost use Rattle.game_model.specs.declared.world.World.{World};
ghost use Rattle.game_model.specs.World.{AreClients, HasClients, head_of};
ghost use Rattle.sync_hash.specs.Kept.{actor_number, parts_number};
ghost use Rattle.sync_hash.specs.WorldHash.{hash_of, hash_of_1, IsLent};

use crate::actor_bytes::actor_number;
use crate::header::{header_number, header_number_1};
use crate::ore_bytes::ore_sum;
use game_model::{Actor, Head, MAX_ACTORS, Ore, World};

/// The hash of a world with 1 to `MAX_CLIENTS` clients, with one cash and one departure flag for
/// each of them, and at most [`MAX_ACTORS`] actors: the sum of the FNV-1a numbers of its header, of
/// each actor and of each cell with ore, modulo 2^64.
pub fn world_hash(w: &World) -> u64
    requires clients { HasClients w.now }
    requires actors { length w.now.actors ≤ MAX_ACTORS }
    ensures { result ≡ hash_of w.now }
{
    with_parts(header_number(&head_of(w), w.actors.len() as u32), w)
}

/// The hash of a world in the first version, as [`world_hash`] but without the pace in its header:
/// that of the marks in replays of version 1. It takes no memory.
pub fn world_hash_1(w: &World) -> u64
    requires clients { HasClients w.now }
    requires actors { length w.now.actors ≤ MAX_ACTORS }
    ensures { result ≡ hash_of_1 w.now }
{
    with_parts(header_number_1(&head_of(w), w.actors.len() as u32), w)
}

/// The hash of a world with this head and this ore, as [`world_hash`], where it has so many actors
/// and their [numbers](number_of_actor) have this sum modulo 2^64. It takes no memory.
pub fn lent_hash(head: &Head, actors: u32, sum: u64, ore: &Ore) -> u64
    requires { AreClients head.now.cash head.now.gone }
    ensures { (w : World) → IsLent w head.now actors sum ore.now → result ≡ hash_of w }
{
    header_number(head, actors)
        .wrapping_add(sum)
        .wrapping_add(ore_sum(ore))
}

/// The same in the first version, as [`world_hash_1`].
pub fn lent_hash_1(head: &Head, actors: u32, sum: u64, ore: &Ore) -> u64
    requires { AreClients head.now.cash head.now.gone }
    ensures { (w : World) → IsLent w head.now actors sum ore.now → result ≡ hash_of_1 w }
{
    header_number_1(head, actors)
        .wrapping_add(sum)
        .wrapping_add(ore_sum(ore))
}

/// A header's number with those of a world's actors and cells, modulo 2^64.
fn with_parts(header: u64, w: &World) -> u64
    ensures { result ≡ (header + parts_number w.now) % 2 ^ 64 }
{
    let actors = actors_sum(w.actors.as_slice());
    header.wrapping_add(actors).wrapping_add(ore_sum(&w.ore))
}

/// All of a world but its actors and its ore.
fn head_of(w: &World) -> Head
    ensures { result ≡ head_of w.now }
{
    Head {
        tick: w.tick,
        seed: w.seed,
        drawn: w.drawn,
        next_id: w.next_id,
        pace: w.pace,
        cash: w.cash.copy(),
        gone: w.gone.copy(),
    }
}

/// The sum of the numbers of actors, modulo 2^64.
fn actors_sum(actors: &[Actor]) -> u64
    ensures { result ≡ sum_by actor_number actors.now % 2 ^ 64 }
{
    let mut sum: u64 = 0;
    for actor in actors {
        sum = sum.wrapping_add(actor_number(actor));
    }
    sum
}
