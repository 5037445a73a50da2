ghost use Rattle.std.specs.Prelude.{◌≡◌, ◌≤◌, ◌<◌, ◌*◌, ◌++◌, length, map, drop, Some, slice_get};
ghost use Rattle.game_model.specs.Grid.{place_of};
ghost use Rattle.game_model.specs.Terrain.{number_of};
ghost use Rattle.c_worlds.specs.Ground.{terrain_told, width_told};
ghost use Rattle.c_worlds.specs.Held.{made_in, told_of};
ghost use Rattle.c_worlds.specs.Told.{list_code, list_needed, list_out, one_out};

use crate::held::made_of;
use c_objects::{NO_ROOM, OK, Object, WRONG_OBJECT};
use game_model::{Terrain, Tiles};
use setup_files::Made;
use std::alloc::Global;
use world_units::CPos;

/// The number of a terrain: 0 clear, 1 road, 2 rough, 3 water, 4 rock.
fn number_of(terrain: Terrain) -> u8
    ensures { result ≡ number_of terrain }
{
    match terrain {
        Terrain::Clear => 0,
        Terrain::Road => 1,
        Terrain::Rough => 2,
        Terrain::Water => 3,
        Terrain::Rock => 4,
    }
}

/// The cell at a place in the list of all cells of a map of this size, row by row.
#[tactic(auto, using(crate::proofs::GroundLemmas::cell_steps))]
pub(crate) fn cell_at(width: u8, height: u8, place: usize) -> CPos
    requires { place < width * height }
    ensures column { result.x < width }
    ensures row { result.y < height }
    ensures place { place_of width result ≡ place }
{
    CPos {
        x: (place % usize::from(width)) as u8,
        y: (place / usize::from(width)) as u8,
    }
}

/// How many cells there are.
fn cell_count(tiles: &Tiles) -> usize
    ensures size { result ≡ tiles.now.width * tiles.now.height }
    ensures count { result ≡ length tiles.now.cells }
{
    tiles.whole();
    usize::from(tiles.width()) * usize::from(tiles.height())
}

/// The number of the terrain of the i-th cell, from 0, which is there.
fn number_at(tiles: &Tiles, i: usize) -> u8
    requires { i < tiles.now.width * tiles.now.height }
    ensures { slice_get (map number_of tiles.now.cells) i ≡ Some result }
{
    number_of(tiles.get(cell_at(tiles.width(), tiles.height(), i)))
}

/// Writes the numbers of all cells to the beginning of an array.
fn write_terrain(tiles: &Tiles, out: &mut [u8])
    requires { length tiles.now.cells ≤ length out.old }
    ensures { out.new ≡ map number_of tiles.now.cells ++ drop (length tiles.now.cells) out.old }
{
    for i in 0..cell_count(tiles) {
        out[i] = number_at(tiles, i);
    }
}

/// The same where they have room, how many they are, and how wide the map is.
#[tactic(auto, using(crate::proofs::WriteLemmas::counted))]
fn terrain_to(made: &Made, width: &mut u32, out: &mut [u8], needed: &mut usize) -> u32
    ensures code { result ≡ list_code (terrain_told made.now) (length out.old) }
    ensures width { width.new ≡ one_out (width_told made.now) width.old }
    ensures out { out.new ≡ list_out (terrain_told made.now) out.old }
    ensures needed { needed.new ≡ list_needed (terrain_told made.now) needed.old }
{
    let map = made.maker.map();
    let tiles = &map.terrain;
    *width = u32::from(map.width);
    *needed = cell_count(tiles);
    if cell_count(tiles) > out.len() {
        return NO_ROOM;
    }
    write_terrain(tiles, out);
    OK
}

/// The terrain of each cell of a setup that was read, row by row, how many cells there are, and how
/// many a row has. `NO_ROOM` where the array is too short: then only these numbers are written.
pub fn setup_terrain(
    setup: &mut Object,
    alloc: Global,
    width: &mut u32,
    out: &mut [u8],
    needed: &mut usize,
) -> u32
    ensures code { result
        ≡ list_code (told_of (made_in setup.old.held.held) terrain_told) (length out.old) }
    ensures width { width.new
        ≡ one_out (told_of (made_in setup.old.held.held) width_told) width.old }
    ensures out { out.new
        ≡ list_out (told_of (made_in setup.old.held.held) terrain_told) out.old }
    ensures needed { needed.new
        ≡ list_needed (told_of (made_in setup.old.held.held) terrain_told) needed.old }
    ensures stays { setup.new.held.held ≡ setup.old.held.held }
{
    let Some(kept) = setup.take(alloc) else {
        return WRONG_OBJECT;
    };
    let code = match made_of(&kept) {
        Some(made) => terrain_to(made, width, out, needed),
        None => WRONG_OBJECT,
    };
    setup.put(kept);
    code
}
