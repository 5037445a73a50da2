ghost use Rattle.std.specs.Prelude.{◌≡◌, length};
ghost use Rattle.c_worlds.specs.Held.{game_in, told_of};
ghost use Rattle.c_worlds.specs.Told.{list_code, list_needed, list_out};
ghost use Rattle.c_worlds.specs.Worlds.{ore_told};

use crate::held::game_of;
use crate::room::copy_out;
use c_objects::{Object, WRONG_OBJECT};
use std::alloc::Global;

/// The ore of each cell of a world, a peer or a server, row by row, and how many cells there are.
/// `NO_ROOM` where the array is too short: then only their number is written.
pub fn read_ore(object: &mut Object, alloc: Global, out: &mut [u8], needed: &mut usize) -> u32
    ensures code { result
        ≡ list_code (told_of (game_in object.old.held.held) ore_told) (length out.old) }
    ensures out { out.new ≡ list_out (told_of (game_in object.old.held.held) ore_told) out.old }
    ensures needed { needed.new
        ≡ list_needed (told_of (game_in object.old.held.held) ore_told) needed.old }
    ensures stays { object.new.held.held ≡ object.old.held.held }
{
    let Some(kept) = object.take(alloc) else {
        return WRONG_OBJECT;
    };
    let code = match game_of(&kept) {
        Some(game) => copy_out(game.ore().as_slice(), out, needed),
        None => WRONG_OBJECT,
    };
    object.put(kept);
    code
}
