ghost use Rattle.std.specs.Prelude.{◌≡◌, ◌<◌, ◌≤◌, ◌*◌, ◌%◌, ◌^◌, length, IfOk};
ghost use Rattle.std.specs.List.{sum_by};
ghost use Rattle.sync_hash.specs.HashedBytes.{cell_at};
ghost use Rattle.sync_hash.specs.Kept.{cell_number, cell_numbers, ore_cells};

use crate::actor_bytes::write_cell;
use crate::fnv_state::FnvState;
use base::NoMemory;
use game_model::Ore;
use std::alloc::Global;
use world_units::CPos;

/// The number of the bytes of a cell with this ore, or 0 for a cell without ore.
pub(crate) fn cell_number(p: CPos, ore: u8) -> u64
    ensures { result ≡ cell_number p ore }
{
    if ore == 0 {
        return 0;
    }
    let mut state = FnvState::new();
    write_cell(&mut state, p);
    state.write_u8(ore);
    state.finish()
}

/// The cell at a place in the list of all cells of a map of this size, row by row.
pub(crate) fn cell_at(width: u8, height: u8, place: usize) -> CPos
    requires { place < width * height }
    ensures { result ≡ cell_at width place }
{
    CPos {
        x: (place % usize::from(width)) as u8,
        y: (place / usize::from(width)) as u8,
    }
}

/// The number of each cell, row by row.
pub(crate) fn cell_numbers(alloc: Global, ore: &Ore) -> Result<Vec<u64>, NoMemory>
    ensures value { IfOk result (λ numbers. numbers.items ≡
        cell_numbers ore.now.width 0 ore.now.cells) }
    ensures whole { IfOk result (λ numbers. length numbers.items ≡ ore.now.width * ore.now.height) }
{
    let cells = ore.as_slice();
    let mut numbers = Vec::with_capacity(alloc, cells.len())?;
    for (place, bales) in cells.iter().enumerate() {
        let p = cell_at(ore.width(), ore.height(), place);
        numbers.push(cell_number(p, *bales))?;
    }
    Ok(numbers)
}

/// The sum of the numbers of all cells, modulo 2^64.
pub(crate) fn ore_sum(ore: &Ore) -> u64
    ensures { result ≡ sum_by (λ n. n) (cell_numbers ore.now.width 0 ore.now.cells) % 2 ^ 64 }
{
    let mut sum: u64 = 0;
    for (place, bales) in ore.as_slice().iter().enumerate() {
        let p = cell_at(ore.width(), ore.height(), place);
        sum = sum.wrapping_add(cell_number(p, *bales));
    }
    sum
}

/// How many of these cells have ore.
pub(crate) fn ore_cells(cells: &[u8]) -> usize
    ensures value { result ≡ ore_cells cells.now }
    ensures limit { result ≤ length cells.now }
{
    let mut with_ore = 0;
    for bales in cells {
        if *bales != 0 {
            with_ore += 1;
        }
    }
    with_ore
}

/// The sum of numbers, modulo 2^64.
pub(crate) fn sum_of(numbers: &[u64]) -> u64
    ensures { result ≡ sum_by (λ n. n) numbers.now % 2 ^ 64 }
{
    let mut sum: u64 = 0;
    for number in numbers {
        sum = sum.wrapping_add(*number);
    }
    sum
}
