ghost use Rattle.std.specs.Prelude.{◌≡◌, ◌≢◌, ◌≤◌, ◌<◌, ◌*◌, ◌++◌, length, drop, Some, slice_get};
ghost use Rattle.std.specs.Prelude.{IfOk, OnErr, OnOk};
ghost use Rattle.shroud.specs.ShroudState.{shrouded, updated};
ghost use Rattle.tick_core.specs.Game.{game_clients};
ghost use Rattle.c_objects.specs.declared.code.TheConstants.{NO_MEMORY};
ghost use Rattle.c_worlds.specs.Held.{game_in, told_of};
ghost use Rattle.c_worlds.specs.Sights.{columns_told, flags_of, seen_told, sight_of};
ghost use Rattle.c_worlds.specs.Told.{list_code, list_needed, list_out, one_out, room_code};
ghost use Rattle.c_worlds.specs.Told.{written};

use crate::ground::cell_at;
use crate::held::game_of;
use base::NoMemory;
use c_objects::{BAD_ARGUMENT, NO_MEMORY, NO_ROOM, OK, Object, WRONG_OBJECT};
use frame_core::Sim;
use game_bots::GameActors;
use shroud::Shroud;
use std::alloc::Global;
use tick_core::Game;

/// What each client sees now: a shroud that is told the actors of this world alone.
fn shroud_of(alloc: Global, game: &Game) -> Result<Shroud, NoMemory>
    ensures { IfOk result (λ shroud. shroud ≡ updated
        (shrouded game.now.setup.rules game.now.setup.map.width game.now.setup.map.height
        (game_clients game.now)) game.now.world.actors shroud.touched) }
{
    let map = game.map();
    let rules = game.shared_rules().clone()?;
    let mut shroud = Shroud::create(alloc, rules, map.width, map.height, game.clients())?;
    // by its clause they are few
    let _few = game.actor_count();
    shroud.update_from(&GameActors { game });
    Ok(shroud)
}

/// The byte of the i-th cell, from 0, which is there.
fn flag_at(shroud: &Shroud, client: u8, i: usize) -> u8
    requires client { client < shroud.now.clients }
    requires cell { i < shroud.now.width * shroud.now.height }
    ensures { slice_get (flags_of client shroud.now) i ≡ Some result }
{
    u8::from(shroud.seen(client, cell_at(shroud.width(), shroud.height(), i)))
}

/// Writes the bytes of all cells to the beginning of an array.
fn write_flags(shroud: &Shroud, client: u8, out: &mut [u8])
    requires client { client < shroud.now.clients }
    requires room { shroud.now.width * shroud.now.height ≤ length out.old }
    ensures { out.new ≡ flags_of client shroud.now
        ++ drop (shroud.now.width * shroud.now.height) out.old }
{
    for i in 0..usize::from(shroud.width()) * usize::from(shroud.height()) {
        out[i] = flag_at(shroud, client, i);
    }
}

/// Writes what a client sees to the beginning of an array, where all cells have room.
fn write_sight(alloc: Global, game: &Game, client: u8, out: &mut [u8]) -> Result<(), NoMemory>
    requires client { client < game_clients game.now }
    requires room { game.now.setup.map.width * game.now.setup.map.height ≤ length out.old }
    ensures written { OnOk result (out.new ≡ written (sight_of client game.now) out.old) }
    ensures memory { OnErr result (out.new ≡ out.old) }
{
    let shroud = shroud_of(alloc, game)?;
    write_flags(&shroud, client, out);
    Ok(())
}

/// The number of cells of the map.
fn cell_count(game: &Game) -> usize
    ensures { result ≡ game.now.setup.map.width * game.now.setup.map.height }
{
    let map = game.map();
    usize::from(map.width) * usize::from(map.height)
}

/// Writes what a client sees, where all cells have room.
#[tactic(auto, using(crate::proofs::SightLemmas::sight_length))]
fn sight_to(alloc: Global, game: &Game, client: u8, out: &mut [u8]) -> u32
    requires { client < game_clients game.now }
    ensures code { result ≢ NO_MEMORY
        → result ≡ room_code (length out.old) (length (sight_of client game.now)) }
    ensures out { result ≢ NO_MEMORY → out.new ≡ written (sight_of client game.now) out.old }
    ensures memory { result ≡ NO_MEMORY → out.new ≡ out.old }
{
    if cell_count(game) > out.len() {
        return NO_ROOM;
    }
    match write_sight(alloc, game, client, out) {
        Ok(()) => OK,
        Err(_) => NO_MEMORY,
    }
}

/// Writes what a client sees, if the match has it, as [`seen`] does.
#[tactic(auto, using(crate::proofs::SightLemmas::sight_length))]
fn tell_sight(
    alloc: Global,
    game: &Game,
    client: u32,
    width: &mut u32,
    out: &mut [u8],
    needed: &mut usize,
) -> u32
    ensures code { result ≢ NO_MEMORY
        → result ≡ list_code (seen_told client game.now) (length out.old) }
    ensures width { result ≢ NO_MEMORY
        → width.new ≡ one_out (columns_told client game.now) width.old }
    ensures out { result ≢ NO_MEMORY → out.new ≡ list_out (seen_told client game.now) out.old }
    ensures needed { result ≢ NO_MEMORY
        → needed.new ≡ list_needed (seen_told client game.now) needed.old }
    ensures same_width { result ≡ NO_MEMORY → width.new ≡ width.old }
    ensures same_out { result ≡ NO_MEMORY → out.new ≡ out.old }
    ensures same_needed { result ≡ NO_MEMORY → needed.new ≡ needed.old }
{
    if client >= u32::from(game.clients()) {
        return BAD_ARGUMENT;
    }
    let code = sight_to(alloc, game, client as u8, out);
    if code != NO_MEMORY {
        *width = u32::from(game.map().width);
        *needed = cell_count(game);
    }
    code
}

/// Which cells a client sees now in a world, a peer or a server: row by row 1 where it sees the
/// cell, 0 where not, how many cells there are, and how many a row has. What it has seen before is
/// not told. `BAD_ARGUMENT` where the match has no such client. `NO_ROOM` where the array is too
/// short: then only these numbers are written.
pub fn seen(
    object: &mut Object,
    alloc: Global,
    client: u32,
    width: &mut u32,
    out: &mut [u8],
    needed: &mut usize,
) -> u32
    ensures code { result ≢ NO_MEMORY → result
        ≡ list_code (told_of (game_in object.old.held.held) (seen_told client)) (length out.old) }
    ensures width { result ≢ NO_MEMORY → width.new
        ≡ one_out (told_of (game_in object.old.held.held) (columns_told client)) width.old }
    ensures out { result ≢ NO_MEMORY → out.new
        ≡ list_out (told_of (game_in object.old.held.held) (seen_told client)) out.old }
    ensures needed { result ≢ NO_MEMORY → needed.new
        ≡ list_needed (told_of (game_in object.old.held.held) (seen_told client)) needed.old }
    ensures same_width { result ≡ NO_MEMORY → width.new ≡ width.old }
    ensures same_out { result ≡ NO_MEMORY → out.new ≡ out.old }
    ensures same_needed { result ≡ NO_MEMORY → needed.new ≡ needed.old }
    ensures stays { object.new.held.held ≡ object.old.held.held }
{
    let Some(kept) = object.take(alloc) else {
        return WRONG_OBJECT;
    };
    let code = match game_of(&kept) {
        Some(game) => tell_sight(alloc, game, client, width, out, needed),
        None => WRONG_OBJECT,
    };
    object.put(kept);
    code
}
