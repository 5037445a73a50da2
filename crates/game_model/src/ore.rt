ghost use Rattle.std.specs.Prelude.{◌≡◌, ◌+◌, ◌-◌, ◌*◌, ◌^◌, ◌<◌, ◌≤◌, length, replicate, Some};
ghost use Rattle.std.specs.Prelude.{slice_get, IfOk, IsTrue};
ghost use Rattle.game_model.specs.Grid.{IsWhole, place_of, with_cell};
ghost use Rattle.game_model.specs.OreRows.{cells_with_ore, ore_in_row, recounted};

use base::NoMemory;
use std::alloc::Global;
use std::marker::Model;
use world_units::CPos;

/// The ore of each cell of a map, row by row. In a world it is at most [`crate::MAX_ORE`]. How many
/// cells have ore is kept beside it, row by row.
#[derive(Drop)]
pub struct Ore {
    width: u8,
    height: u8,
    cells: Vec<u8>,
    rows: Vec<u32>,
    total: u32,
}

impl Model for Ore {
    ghost use Rattle.std.specs.Prelude.{ℕ};
    ghost use Rattle.game_model.specs.Grid.{Grid};
    ghost use Rattle.game_model.specs.OreRows.{AreCounted};

    ghost Value = { Grid ℕ };

    ghost view = { λ o. record { width = o.width; height = o.height; cells = o.cells.items } };

    ghost invariant = { λ o. AreCounted o.width o.height o.cells.items o.rows.items o.total };
}

/// A count of cells after one of them that was counted or not is counted or not.
fn recounted(count: u32, was: bool, is: bool) -> u32
    requires some { IsTrue was → 1 ≤ count }
    requires room { count < 2 ^ 32 - 1 }
    ensures { result ≡ recounted count was is }
{
    count + u32::from(is) - u32::from(was)
}

/// So many zeros. Out of memory is its only error.
fn zeros<T: Copy>(alloc: Global, zero: T, count: usize) -> Result<Vec<T>, NoMemory>
    ensures { IfOk result (λ items. items.items ≡ replicate count zero) }
{
    let mut items = Vec::new(alloc);
    items.resize(count, zero)?;
    Ok(items)
}

impl Ore {
    /// No ore anywhere. Out of memory is its only error.
    pub fn create(alloc: Global, w: u8, h: u8) -> Result<Ore, NoMemory>
        ensures { IfOk result (λ ore. ore ≡ (record { width = w; height = h; cells = replicate (w * h) 0 })) }
    {
        let cells = zeros(alloc, 0_u8, usize::from(w) * usize::from(h))?;
        let rows = zeros(alloc, 0_u32, usize::from(h))?;
        Ok(Ore {
            width: w,
            height: h,
            cells,
            rows,
            total: 0,
        })
    }

    /// The ore of a cell within the size.
    pub fn get(&self, p: CPos) -> u8
        requires column { p.x < self.now.width }
        requires row { p.y < self.now.height }
        ensures { slice_get self.now.cells (place_of self.now.width p) ≡ Some result }
    {
        self.cells[usize::from(p.y) * usize::from(self.width) + usize::from(p.x)]
    }

    /// Sets the ore of a cell within the size. The other cells stay.
    pub fn set(&mut self, p: CPos, ore: u8)
        requires column { p.x < self.old.width }
        requires row { p.y < self.old.height }
        ensures { self.new ≡ with_cell self.old p ore }
    {
        let place = usize::from(p.y) * usize::from(self.width) + usize::from(p.x);
        let row = usize::from(p.y);
        let had = self.cells[place] > 0;
        let has = ore > 0;
        self.rows[row] = recounted(self.rows[row], had, has);
        self.total = recounted(self.total, had, has);
        self.cells[place] = ore;
    }

    /// The ore of each cell, row by row.
    pub fn as_slice(&self) -> &[u8]
        ensures value { result.now ≡ self.now.cells }
        ensures whole { length self.now.cells ≡ self.now.width * self.now.height }
    {
        let _width = self.width;
        self.cells.as_slice()
    }

    /// How many cells of a row have ore, at most the width. It takes constant time.
    pub fn row_count(&self, y: u8) -> u32
        requires { y < self.now.height }
        ensures value { result ≡ ore_in_row self.now y }
        ensures most { result ≤ self.now.width }
    {
        self.rows[usize::from(y)]
    }

    /// How many cells have ore. It takes constant time.
    pub fn count(&self) -> u32
        ensures value { result ≡ cells_with_ore self.now }
        ensures most { result ≤ self.now.width * self.now.height }
    {
        self.total
    }

    /// The number of columns.
    pub fn width(&self) -> u8
        ensures { result ≡ self.now.width }
    {
        self.width
    }

    /// The number of rows.
    pub fn height(&self) -> u8
        ensures { result ≡ self.now.height }
    {
        self.height
    }

    /// The same ore once more. Out of memory is its only error.
    pub fn copy(&self) -> Result<Ore, NoMemory>
        ensures { IfOk result (λ ore. ore ≡ self.now) }
    {
        Ok(Ore {
            width: self.width,
            height: self.height,
            cells: self.cells.clone()?,
            rows: self.rows.clone()?,
            total: self.total,
        })
    }

    /// There is a number for each cell of the size.
    pub fn whole(&self)
        ensures { IsWhole self.now }
    {
        let _width = self.width;
    }
}
