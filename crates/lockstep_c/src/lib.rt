//! The C library: each export calls what stands below, and states its clauses again.
//!
//! `alloc` takes no bytes, so C passes nothing for it; a slice is a pointer and a length.
#![tactic(auto)]

ghost use Rattle.std.specs.Prelude.{◌≡◌, ◌≢◌, None, length};
ghost use Rattle.lockstep_c.specs.declared.TheConstants.{ABI};
ghost use Rattle.c_objects.specs.declared.code.TheConstants.{NO_MEMORY};
ghost use Rattle.c_worlds.specs.Actors.{actors_told};
ghost use Rattle.c_worlds.specs.Ground.{terrain_told, width_told};
ghost use Rattle.c_worlds.specs.Heads.{head_told};
ghost use Rattle.c_worlds.specs.Held.{game_in, made_in, told_of};
ghost use Rattle.c_worlds.specs.Items.{items_told};
ghost use Rattle.c_worlds.specs.Kinds.{kind_told, name_told};
ghost use Rattle.c_worlds.specs.Routes.{TellsRoute, outs};
ghost use Rattle.c_worlds.specs.Setups.{add_code, added, create_code as setup_code};
ghost use Rattle.c_worlds.specs.Setups.{created as setup_created, read_after, read_answer, read_at};
ghost use Rattle.c_worlds.specs.Setups.{share_code, shared};
ghost use Rattle.c_worlds.specs.Sights.{columns_told, seen_told};
ghost use Rattle.c_worlds.specs.Told.{list_code, list_needed, list_out, one_code, one_out};
ghost use Rattle.c_worlds.specs.Worlds.{create_code, created, ore_told, step_code, stepped};

mod matches;
#[cfg(test)]
mod tests;

use c_objects::Object;
use c_worlds::{CActor, CCell, CFault, CHead, CItem, CKind, CRoute};
use std::alloc::Global;

/// The version of this interface.
pub const ABI: u32 = 1;

/// The version of this interface, to be compared with that of the header.
#[unsafe(no_mangle)]
pub extern "C" fn lockstep_abi() -> u32
    ensures { result ≡ ABI }
{
    ABI
}

/// Frees what an object holds. It is empty afterwards.
#[unsafe(no_mangle)]
pub extern "C" fn lockstep_free(any: &mut Object, alloc: Global)
    ensures { any.new.held.held ≡ None }
{
    any.free(alloc);
}

/// Makes an empty object a setup without files. `WRONG_OBJECT` where it is not empty.
#[unsafe(no_mangle)]
pub extern "C" fn lockstep_setup_create(setup: &mut Object, alloc: Global) -> u32
    ensures code { result ≢ NO_MEMORY → result ≡ setup_code setup.old.held.held }
    ensures after { result ≢ NO_MEMORY → setup.new.held.held ≡ setup_created setup.old.held.held }
    ensures memory { result ≡ NO_MEMORY → setup.new.held.held ≡ setup.old.held.held }
{
    c_worlds::setup_create(setup, alloc)
}

/// Adds a copy of a file to a setup that was not read yet: of rules, after the others, or of a map.
/// `FULL` at a rule file after 64 and at a second map, `BAD_ARGUMENT` where `what` is neither
/// 0 nor 1.
#[unsafe(no_mangle)]
pub extern "C" fn lockstep_setup_add(
    setup: &mut Object,
    alloc: Global,
    what: u32,
    bytes: &[u8],
) -> u32
    ensures code { result ≢ NO_MEMORY → result ≡ add_code setup.old.held.held what }
    ensures after { result ≢ NO_MEMORY
        → setup.new.held.held ≡ added setup.old.held.held what bytes.now }
    ensures memory { result ≡ NO_MEMORY → setup.new.held.held ≡ setup.old.held.held }
{
    c_worlds::setup_add(setup, alloc, what, bytes)
}

/// Reads the files of a setup that was not read yet. `FAULT` where they have one: then their first
/// is written. Else worlds can be made, and no more files are taken.
#[unsafe(no_mangle)]
pub extern "C" fn lockstep_setup_read(setup: &mut Object, alloc: Global, at: &mut CFault) -> u32
    ensures code { result ≢ NO_MEMORY → result ≡ read_answer setup.old.held.held }
    ensures after { result ≢ NO_MEMORY → setup.new.held.held ≡ read_after setup.old.held.held }
    ensures at { result ≢ NO_MEMORY → at.new ≡ read_at setup.old.held.held at.old }
    ensures memory { result ≡ NO_MEMORY → setup.new.held.held ≡ setup.old.held.held }
    ensures same { result ≡ NO_MEMORY → at.new ≡ at.old }
{
    c_worlds::setup_read(setup, alloc, at)
}

/// Makes an empty object the same setup, of files that were read, read anew from copies of their
/// bytes: what is made from one shares nothing with what is made from the other.
#[unsafe(no_mangle)]
pub extern "C" fn lockstep_setup_share(copy: &mut Object, setup: &mut Object, alloc: Global) -> u32
    ensures setup { setup.new.held.held ≡ setup.old.held.held }
    ensures code { result ≢ NO_MEMORY
        → result ≡ share_code copy.old.held.held setup.old.held.held }
    ensures after { result ≢ NO_MEMORY
        → copy.new.held.held ≡ shared copy.old.held.held setup.old.held.held }
    ensures memory { result ≡ NO_MEMORY → copy.new.held.held ≡ copy.old.held.held }
{
    c_worlds::setup_share(copy, setup, alloc)
}

/// A kind of a setup that was read. `NONE` exactly where its rules have no such number.
#[unsafe(no_mangle)]
pub extern "C" fn lockstep_setup_kind(
    setup: &mut Object,
    alloc: Global,
    kind: u32,
    out: &mut CKind,
) -> u32
    ensures code { result ≡ one_code (told_of (made_in setup.old.held.held) (kind_told kind)) }
    ensures out { out.new
        ≡ one_out (told_of (made_in setup.old.held.held) (kind_told kind)) out.old }
    ensures stays { setup.new.held.held ≡ setup.old.held.held }
{
    c_worlds::setup_kind(setup, alloc, kind, out)
}

/// The name of a kind of a setup that was read, as UTF-8 without an end byte, and its length.
#[unsafe(no_mangle)]
pub extern "C" fn lockstep_setup_kind_name(
    setup: &mut Object,
    alloc: Global,
    kind: u32,
    out: &mut [u8],
    needed: &mut usize,
) -> u32
    ensures code { result
        ≡ list_code (told_of (made_in setup.old.held.held) (name_told kind)) (length out.old) }
    ensures out { out.new
        ≡ list_out (told_of (made_in setup.old.held.held) (name_told kind)) out.old }
    ensures needed { needed.new
        ≡ list_needed (told_of (made_in setup.old.held.held) (name_told kind)) needed.old }
    ensures stays { setup.new.held.held ≡ setup.old.held.held }
{
    c_worlds::setup_kind_name(setup, alloc, kind, out, needed)
}

/// The terrain of each cell of a setup that was read, row by row, how many cells there are, and how
/// many a row has. `NO_ROOM` where the array is too short: then only these numbers are written.
#[unsafe(no_mangle)]
pub extern "C" fn lockstep_setup_terrain(
    setup: &mut Object,
    alloc: Global,
    width: &mut u32,
    out: &mut [u8],
    needed: &mut usize,
) -> u32
    ensures code { result
        ≡ list_code (told_of (made_in setup.old.held.held) terrain_told) (length out.old) }
    ensures width { width.new
        ≡ one_out (told_of (made_in setup.old.held.held) width_told) width.old }
    ensures out { out.new
        ≡ list_out (told_of (made_in setup.old.held.held) terrain_told) out.old }
    ensures needed { needed.new
        ≡ list_needed (told_of (made_in setup.old.held.held) terrain_told) needed.old }
    ensures stays { setup.new.held.held ≡ setup.old.held.held }
{
    c_worlds::setup_terrain(setup, alloc, width, out, needed)
}

/// Makes an empty object the opening world of a match of 1 to 16 clients over a setup that was
/// read.
#[unsafe(no_mangle)]
pub extern "C" fn lockstep_world_create(
    world: &mut Object,
    setup: &mut Object,
    alloc: Global,
    seed: u32,
    clients: u32,
) -> u32
    ensures setup { setup.new.held.held ≡ setup.old.held.held }
    ensures code { result ≢ NO_MEMORY
        → result ≡ create_code world.old.held.held setup.old.held.held clients }
    ensures after { result ≢ NO_MEMORY
        → world.new.held.held ≡ created world.old.held.held setup.old.held.held seed clients }
    ensures memory { result ≡ NO_MEMORY → world.new.held.held ≡ world.old.held.held }
{
    c_worlds::world_create(world, setup, alloc, seed, clients)
}

/// Steps a world by a frame: a play or a departure of each client by rising number, one after the
/// other, and a departure of each that has left. `FULL` after 536,870,911 frames, `BAD_BYTES` where
/// the bytes spell no such frame.
#[unsafe(no_mangle)]
pub extern "C" fn lockstep_world_step(world: &mut Object, alloc: Global, bytes: &[u8]) -> u32
    ensures code { result ≡ step_code world.old.held.held bytes.now }
    ensures after { world.new.held.held ≡ stepped world.old.held.held bytes.now }
{
    c_worlds::world_step(world, alloc, bytes)
}

/// The head of the world of a world, a peer or a server.
#[unsafe(no_mangle)]
pub extern "C" fn lockstep_read_head(object: &mut Object, alloc: Global, out: &mut CHead) -> u32
    ensures code { result ≡ one_code (told_of (game_in object.old.held.held) head_told) }
    ensures out { out.new ≡ one_out (told_of (game_in object.old.held.held) head_told) out.old }
    ensures stays { object.new.held.held ≡ object.old.held.held }
{
    c_worlds::read_head(object, alloc, out)
}

/// The actors of a world, a peer or a server by rising id, and how many they are. `NO_ROOM` where
/// the array is too short: then only their number is written.
#[unsafe(no_mangle)]
pub extern "C" fn lockstep_read_actors(
    object: &mut Object,
    alloc: Global,
    out: &mut [CActor],
    needed: &mut usize,
) -> u32
    ensures code { result
        ≡ list_code (told_of (game_in object.old.held.held) actors_told) (length out.old) }
    ensures out { out.new
        ≡ list_out (told_of (game_in object.old.held.held) actors_told) out.old }
    ensures needed { needed.new
        ≡ list_needed (told_of (game_in object.old.held.held) actors_told) needed.old }
    ensures stays { object.new.held.held ≡ object.old.held.held }
{
    c_worlds::read_actors(object, alloc, out, needed)
}

/// What an actor of a world, a peer or a server is to do, and how much it is: its activities, the
/// one at work first, and then its builds. `NONE` where there is no actor with this id, `NO_ROOM`
/// where the array is too short: then only their number is written.
#[unsafe(no_mangle)]
pub extern "C" fn lockstep_read_items(
    object: &mut Object,
    alloc: Global,
    id: u32,
    out: &mut [CItem],
    needed: &mut usize,
) -> u32
    ensures code { result
        ≡ list_code (told_of (game_in object.old.held.held) (items_told id)) (length out.old) }
    ensures out { out.new
        ≡ list_out (told_of (game_in object.old.held.held) (items_told id)) out.old }
    ensures needed { needed.new
        ≡ list_needed (told_of (game_in object.old.held.held) (items_told id)) needed.old }
    ensures stays { object.new.held.held ≡ object.old.held.held }
{
    c_worlds::read_items(object, alloc, id, out, needed)
}

/// The ore of each cell of a world, a peer or a server, row by row, and how many cells there are.
/// `NO_ROOM` where the array is too short: then only their number is written.
#[unsafe(no_mangle)]
pub extern "C" fn lockstep_read_ore(
    object: &mut Object,
    alloc: Global,
    out: &mut [u8],
    needed: &mut usize,
) -> u32
    ensures code { result
        ≡ list_code (told_of (game_in object.old.held.held) ore_told) (length out.old) }
    ensures out { out.new ≡ list_out (told_of (game_in object.old.held.held) ore_told) out.old }
    ensures needed { needed.new
        ≡ list_needed (told_of (game_in object.old.held.held) ore_told) needed.old }
    ensures stays { object.new.held.held ≡ object.old.held.held }
{
    c_worlds::read_ore(object, alloc, out, needed)
}

/// Which cells a client sees now in a world, a peer or a server: row by row 1 where it sees the
/// cell, 0 where not, how many cells there are, and how many a row has. What it has seen before is
/// not told. `BAD_ARGUMENT` where the match has no such client. `NO_ROOM` where the array is too
/// short: then only these numbers are written.
#[unsafe(no_mangle)]
pub extern "C" fn lockstep_seen(
    object: &mut Object,
    alloc: Global,
    client: u32,
    width: &mut u32,
    out: &mut [u8],
    needed: &mut usize,
) -> u32
    ensures code { result ≢ NO_MEMORY → result
        ≡ list_code (told_of (game_in object.old.held.held) (seen_told client)) (length out.old) }
    ensures width { result ≢ NO_MEMORY → width.new
        ≡ one_out (told_of (game_in object.old.held.held) (columns_told client)) width.old }
    ensures out { result ≢ NO_MEMORY → out.new
        ≡ list_out (told_of (game_in object.old.held.held) (seen_told client)) out.old }
    ensures needed { result ≢ NO_MEMORY → needed.new
        ≡ list_needed (told_of (game_in object.old.held.held) (seen_told client)) needed.old }
    ensures same_width { result ≡ NO_MEMORY → width.new ≡ width.old }
    ensures same_out { result ≡ NO_MEMORY → out.new ≡ out.old }
    ensures same_needed { result ≡ NO_MEMORY → needed.new ≡ needed.old }
    ensures stays { object.new.held.held ≡ object.old.held.held }
{
    c_worlds::seen(object, alloc, client, width, out, needed)
}

/// The way of least cost that an actor of a kind would begin now in a world, a peer or a server:
/// over the terrain and the buildings as they stand, not around other units. Its cells begin with
/// the first and end with the last. `NONE` where there is no way, as of a kind that doesn't move,
/// or both cells are the same. `NO_ROOM` where the array is too short: then only the cost and the
/// number of the cells are written. `BAD_ARGUMENT` where the rules have no such kind, or the map no
/// such cells.
#[unsafe(no_mangle)]
pub extern "C" fn lockstep_find_route(
    object: &mut Object,
    alloc: Global,
    kind: u32,
    x: u32,
    y: u32,
    to_x: u32,
    to_y: u32,
    out: &mut [CCell],
    route: &mut CRoute,
) -> u32
    ensures told { result ≢ NO_MEMORY → TellsRoute (game_in object.old.held.held) kind x y to_x
        to_y out.old route.old (outs result out.new route.new) }
    ensures out { result ≡ NO_MEMORY → out.new ≡ out.old }
    ensures route { result ≡ NO_MEMORY → route.new ≡ route.old }
    ensures stays { object.new.held.held ≡ object.old.held.held }
{
    c_worlds::find_route(object, alloc, kind, x, y, to_x, to_y, out, route)
}
