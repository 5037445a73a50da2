ghost use Rattle.std.specs.Prelude.{◌≡◌, ◌<◌, length, Ok, IfOk, IfErr, OnOk};
ghost use Rattle.std.specs.Str.{chars};
ghost use Rattle.yaml_lines.specs.Trees.{trees_of};
ghost use Rattle.yaml_lines.specs.declared.forest.Forest.TheViews.{out-Node};
ghost use Rattle.map_grid.specs.Each.{each, step_at};
ghost use Rattle.map_grid.specs.Fault.{IsMapFault};
ghost use Rattle.map_grid.specs.Rows.{cells_set, has_leading_zero, ore_grid, ore_of, ore_taken};
ghost use Rattle.map_grid.specs.Rows.{row_of, terrain_of, tiles_of, tiles_taken};
ghost use Rattle.map_grid.specs.declared.fault.MapFault.TheVariants.{BadRow, UnknownTerrain};

use crate::fault::MapFault;
use crate::fields::find;
use base::NoMemory;
use game_model::{Ore, Terrain, Tiles};
use rule_values::read_number;
use std::alloc::Global;
use world_units::CPos;
use yaml_lines::{Forest, Node, Place};

/// The terrain that a character says.
fn terrain_of(character: char) -> Option<Terrain>
    ensures { result ≡ terrain_of character }
{
    match character {
        '.' => Some(Terrain::Clear),
        '=' => Some(Terrain::Road),
        'r' => Some(Terrain::Rough),
        '~' => Some(Terrain::Water),
        'X' => Some(Terrain::Rock),
        _ => None,
    }
}

/// The ore that a character says: a digit is ten times its value.
fn ore_of(character: char) -> Option<u8>
    ensures { result ≡ ore_of character }
{
    match character {
        '.' => Some(0),
        '0'..='9' => Some(10 * (character as u8 - b'0')),
        _ => None,
    }
}

/// Whether a key begins with a zero and has more after it.
fn has_leading_zero(key: &[u8]) -> bool
    ensures { result ≡ has_leading_zero key.now }
{
    match key {
        [b'0', _, ..] => true,
        _ => false,
    }
}

/// The row that a node's key names, below the height. Its fault is `BadRow`.
#[tactic(auto, unfolding(crate::specs::Rows::row_of))]
fn read_row(height: u8, node: &Node) -> Result<u8, MapFault>
    ensures read { result ≡ row_of height (out-Node node.now).key (out-Node node.now).place }
    ensures on { IfOk result (λ y. y < height) }
{
    let key = node.key.as_str();
    if has_leading_zero(key.as_bytes()) {
        return Err(MapFault::BadRow { place: node.place });
    }
    match read_number(key) {
        Some(y) if y < u64::from(height) => Ok(y as u8),
        _ => Err(MapFault::BadRow { place: node.place }),
    }
}

/// The characters of a text.
fn chars_of(alloc: Global, text: &str) -> Result<Vec<char>, NoMemory>
    ensures { IfOk result (λ row. row.items ≡ chars text.now) }
{
    text.chars().collect(alloc)
}

/// Sets a row of terrain, with a character for each column.
#[tactic(auto, using(crate::proofs::RowLemmas::row_steps))]
fn set_terrain(tiles: &mut Tiles, y: u8, row: &[char], place: Place) -> Result<(), MapFault>
    requires on { y < tiles.old.height }
    requires full { length row.now ≡ tiles.old.width }
    ensures set { OnOk result (cells_set terrain_of (UnknownTerrain place) 0 y row.now tiles.old ≡
        Ok
        tiles.new) }
    ensures fault { IfErr result (λ fault. IsMapFault fault (cells_set terrain_of (UnknownTerrain
        place) 0 y row.now tiles.old)) }
{
    let _columns = tiles.width();
    for (x, character) in row.iter().enumerate() {
        let Some(terrain) = terrain_of(*character) else {
            return Err(MapFault::UnknownTerrain { place });
        };
        tiles.set(CPos { x: x as u8, y }, terrain);
    }
    Ok(())
}

/// Sets a row of ore, with a character for each column.
#[tactic(auto, using(crate::proofs::RowLemmas::row_steps))]
fn set_ore(ore: &mut Ore, y: u8, row: &[char], place: Place) -> Result<(), MapFault>
    requires on { y < ore.old.height }
    requires full { length row.now ≡ ore.old.width }
    ensures set { OnOk result (cells_set ore_of (BadRow place) 0 y row.now ore.old ≡ Ok ore.new) }
    ensures fault { IfErr result (λ fault. IsMapFault fault (cells_set ore_of (BadRow place) 0 y
        row.now ore.old)) }
{
    let _columns = ore.width();
    for (x, character) in row.iter().enumerate() {
        let Some(bales) = ore_of(*character) else {
            return Err(MapFault::BadRow { place });
        };
        ore.set(CPos { x: x as u8, y }, bales);
    }
    Ok(())
}

/// Takes a node into the terrain as one of its rows.
#[tactic(auto, unfolding(crate::specs::Rows::tiles_taken))]
fn take_tiles(alloc: Global, tiles: &mut Tiles, node: &Node) -> Result<(), MapFault>
    ensures taken { OnOk result (step_at tiles_taken tiles.old node.now ≡ Ok tiles.new) }
    ensures fault { IfErr result (λ fault. IsMapFault fault (step_at tiles_taken tiles.old
        node.now)) }
{
    let y = read_row(tiles.height(), node)?;
    let row = chars_of(alloc, node.value.as_str())?;
    if row.len() != usize::from(tiles.width()) {
        return Err(MapFault::BadRow { place: node.place });
    }
    set_terrain(tiles, y, row.as_slice(), node.place)
}

/// Takes a node into the ore as one of its rows.
#[tactic(auto, unfolding(crate::specs::Rows::ore_taken))]
fn take_ore(alloc: Global, ore: &mut Ore, node: &Node) -> Result<(), MapFault>
    ensures taken { OnOk result (step_at ore_taken ore.old node.now ≡ Ok ore.new) }
    ensures fault { IfErr result (λ fault. IsMapFault fault (step_at ore_taken ore.old node.now)) }
{
    let y = read_row(ore.height(), node)?;
    let row = chars_of(alloc, node.value.as_str())?;
    if row.len() != usize::from(ore.width()) {
        return Err(MapFault::BadRow { place: node.place });
    }
    set_ore(ore, y, row.as_slice(), node.place)
}

/// Takes all rows below a node into the terrain.
#[tactic(auto, using(crate::proofs::EachLemmas::each_steps))]
fn take_all_tiles(alloc: Global, tiles: &mut Tiles, rows: &Forest) -> Result<(), MapFault>
    ensures taken { OnOk result (each tiles_taken tiles.old (trees_of rows.now) ≡ Ok tiles.new) }
    ensures fault { IfErr result (λ fault. IsMapFault fault (each tiles_taken tiles.old (trees_of
        rows.now))) }
{
    for node in &rows.nodes {
        take_tiles(alloc, tiles, node)?;
    }
    Ok(())
}

/// Takes all rows below a node into the ore.
#[tactic(auto, using(crate::proofs::EachLemmas::each_steps))]
fn take_all_ore(alloc: Global, ore: &mut Ore, rows: &Forest) -> Result<(), MapFault>
    ensures taken { OnOk result (each ore_taken ore.old (trees_of rows.now) ≡ Ok ore.new) }
    ensures fault { IfErr result (λ fault. IsMapFault fault (each ore_taken ore.old (trees_of
        rows.now))) }
{
    for node in &rows.nodes {
        take_ore(alloc, ore, node)?;
    }
    Ok(())
}

/// The terrain of a map of this size. Its faults are `BadRow` and `UnknownTerrain`.
#[tactic(auto, unfolding(crate::specs::Rows::tiles_of))]
pub(crate) fn read_tiles(
    alloc: Global,
    width: u8,
    height: u8,
    forest: &Forest,
) -> Result<Tiles, MapFault>
    ensures read { IfOk result (λ tiles. tiles_of width height (trees_of forest.now) ≡ Ok tiles) }
    ensures fault { IfErr result (λ fault. IsMapFault fault (tiles_of width height (trees_of
        forest.now))) }
{
    let mut tiles = Tiles::create(alloc, width, height)?;
    if let Some(node) = find(forest, "Tiles") {
        take_all_tiles(alloc, &mut tiles, &node.children)?;
    }
    Ok(tiles)
}

/// The ore of a map of this size. Its fault is `BadRow`.
#[tactic(auto, unfolding(crate::specs::Rows::ore_grid))]
pub(crate) fn read_ore(
    alloc: Global,
    width: u8,
    height: u8,
    forest: &Forest,
) -> Result<Ore, MapFault>
    ensures read { IfOk result (λ ore. ore_grid width height (trees_of forest.now) ≡ Ok ore) }
    ensures fault { IfErr result (λ fault. IsMapFault fault (ore_grid width height (trees_of
        forest.now))) }
{
    let mut ore = Ore::create(alloc, width, height)?;
    if let Some(node) = find(forest, "Ore") {
        take_all_ore(alloc, &mut ore, &node.children)?;
    }
    Ok(ore)
}
