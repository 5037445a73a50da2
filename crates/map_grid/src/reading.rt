ghost use Rattle.std.specs.Prelude.{◌≡◌, Ok, IfOk, IfErr};
ghost use Rattle.yaml_lines.specs.Trees.{trees_of};
ghost use Rattle.game_model.specs.ValidMap.{IsMapFor};
ghost use Rattle.map_grid.specs.Fault.{IsMapFault};
ghost use Rattle.map_grid.specs.MapOf.{map_of, map_sized};

use crate::fault::MapFault;
use crate::fields::{read_cash, read_size};
use crate::rows::{read_ore, read_tiles};
use crate::starts::read_starts;
use game_model::Map;
use rule_traits::Rules;
use std::alloc::Global;
use yaml_lines::Forest;

/// What follows the size of a map.
#[tactic(auto, unfolding(crate::specs::MapOf::map_sized))]
fn read_sized(
    alloc: Global,
    forest: &Forest,
    rules: &Rules,
    width: u8,
    height: u8,
) -> Result<Map, MapFault>
    ensures read { IfOk result (λ map. map_sized rules.now (trees_of forest.now) width height ≡ Ok
        map) }
    ensures fault { IfErr result (λ fault. IsMapFault fault (map_sized rules.now (trees_of
        forest.now) width height)) }
{
    let cash = read_cash(forest)?;
    let terrain = read_tiles(alloc, width, height, forest)?;
    let ore = read_ore(alloc, width, height, forest)?;
    let starts = read_starts(alloc, rules, width, height, forest)?;
    Ok(Map {
        width,
        height,
        terrain,
        ore,
        starts,
        cash,
    })
}

/// The map that a resolved forest describes. Its actors are of kinds of these rules.
///
/// `Size` is the width and the height, as `W,H`. `Cash` is the cash of each client at the start.
/// `Tiles` and `Ore` have a child for each row that is given: its key is the row's number without
/// leading zeros, and its value has a character for each column. `Actors` has a child for each
/// actor, whose value is its kind's name, with the fields `Owner`, `Location` and `Facing`. Other
/// fields are passed over. Of two nodes of one key the first is read, save that each row and each
/// actor is taken; in a resolved forest no key stands twice.
///
/// The fault is the first in this order: that of `Size`, of `Cash`, of `Tiles` row by row, of
/// `Ore` row by row, and of `Actors` actor by actor, where for each actor come `TooManyActors`,
/// `UnknownKind`, `BadOwner`, `BadField` for its location, `BadField` for its facing, and
/// `CellTaken`. `BadField` comes too where `Size` is missing or outside 1 to `MAX_SIDE`, and where
/// `Cash` is above `MAX_CASH`; `BadRow` comes before `UnknownTerrain` in one row. `NoMemory` may
/// come in place of any answer.
#[tactic(auto, unfolding(crate::specs::MapOf::map_of))]
pub fn read_map(alloc: Global, forest: &Forest, rules: &Rules) -> Result<Map, MapFault>
    ensures read { IfOk result (λ map. map_of rules.now (trees_of forest.now) ≡ Ok map) }
    ensures valid { IfOk result (IsMapFor rules.now) }
    ensures fault { IfErr result (λ fault. IsMapFault fault (map_of rules.now (trees_of
        forest.now))) }
{
    let (width, height) = read_size(forest)?;
    read_sized(alloc, forest, rules, width, height)
}
