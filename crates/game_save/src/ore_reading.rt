ghost use Rattle.std.specs.Prelude.{◌≡◌, ◌<◌, ◌≤◌, ◌*◌, [], IfOk};
ghost use Rattle.game_model.specs.declared.limits.TheConstants.{MAX_ORE};
ghost use Rattle.game_model.specs.Grid.{place_of};
ghost use Rattle.game_model.specs.ValidMap.{IsOreOf};
ghost use Rattle.game_save.specs.Fields.{Gives, Reads};
ghost use Rattle.game_save.specs.WorldReading.{next_ore, ore_in};

use crate::save_cursor::SaveCursor;
use crate::save_fault::SaveFault;
use game_model::{MAX_ORE, Ore};
use std::alloc::Global;
use world_units::CPos;

/// The cell at a place in the list of all cells of a map of this size, row by row.
#[tactic(auto, using(crate::proofs::OreLemmas::cell_steps))]
fn cell_at(width: u8, height: u8, place: usize) -> CPos
    requires { place < width * height }
    ensures column { result.x < width }
    ensures row { result.y < height }
    ensures place { place_of width result ≡ place }
{
    CPos {
        x: (place % usize::from(width)) as u8,
        y: (place / usize::from(width)) as u8,
    }
}

/// Reads the ore of a cell.
fn read_bales(c: &mut SaveCursor<'_>) -> Result<u8, SaveFault>
    ensures reads { Reads (next_ore []) c.old c.new result }
    ensures most { IfOk result (λ bales. bales ≤ MAX_ORE) }
{
    c.u8_in(0, u64::from(MAX_ORE) + 1)
}

/// Reads the ore of each cell of a map of this size, row by row.
#[tactic(auto, unfolding(crate::specs::WorldReading::ore_in))]
pub(crate) fn read_ore(
    alloc: Global,
    c: &mut SaveCursor<'_>,
    width: u8,
    height: u8,
) -> Result<Ore, SaveFault>
    ensures reads { Gives (ore_in width height) c.old c.new result }
    ensures valid { IfOk result (IsOreOf width height) }
{
    let mut ore = Ore::create(alloc, width, height)?;
    for place in 0..usize::from(width) * usize::from(height) {
        let bales = read_bales(c)?;
        ore.set(cell_at(width, height, place), bales);
    }
    Ok(ore)
}
