ghost use Rattle.std.specs.Prelude.{◌≡◌, ◌*◌, ◌<◌, ◌↔◌, IsTrue, replicate, Some, slice_get, IfOk};
ghost use Rattle.game_model.specs.Grid.{IsWhole, place_of, with_cell};
ghost use Rattle.game_model.specs.declared.terrain.Terrain.TheVariants.{Clear};

use crate::terrain::{Terrain, number_of, terrain_of};
use base::NoMemory;
use packed_lists::Nibbles;
use std::alloc::Global;
use std::marker::Model;
use world_units::CPos;

/// The terrain of each cell of a map, row by row, packed.
#[derive(Drop)]
pub struct Tiles {
    width: u8,
    height: u8,
    numbers: Nibbles,
}

impl Model for Tiles {
    ghost use Rattle.std.specs.Prelude.{map};
    ghost use Rattle.game_model.specs.Grid.{Grid};
    ghost use Rattle.game_model.specs.declared.terrain.Terrain.{Terrain};
    ghost use Rattle.game_model.specs.Terrain.{terrain_of};
    ghost use Rattle.game_model.specs.Packed.{AreTerrains};

    ghost Value = { Grid Terrain };

    ghost view = { λ t. record { width = t.width; height = t.height; cells = map terrain_of t.numbers } };

    ghost invariant = { λ t. AreTerrains t.width t.height t.numbers };
}

impl Tiles {
    /// Clear ground everywhere. Out of memory is its only error.
    pub fn create(alloc: Global, w: u8, h: u8) -> Result<Tiles, NoMemory>
        ensures { IfOk result (λ tiles. tiles ≡ (record { width = w; height = h; cells = replicate (w * h) Clear })) }
    {
        let numbers = Nibbles::zeros(alloc, u32::from(w) * u32::from(h))?;
        Ok(Tiles {
            width: w,
            height: h,
            numbers,
        })
    }

    /// The terrain of a cell within the size.
    pub fn get(&self, p: CPos) -> Terrain
        requires column { p.x < self.now.width }
        requires row { p.y < self.now.height }
        ensures { slice_get self.now.cells (place_of self.now.width p) ≡ Some result }
    {
        let place = usize::from(p.y) * usize::from(self.width) + usize::from(p.x);
        terrain_of(self.numbers.get(place))
    }

    /// Sets the terrain of a cell within the size. The other cells stay.
    pub fn set(&mut self, p: CPos, terrain: Terrain)
        requires column { p.x < self.old.width }
        requires row { p.y < self.old.height }
        ensures { self.new ≡ with_cell self.old p terrain }
    {
        let place = usize::from(p.y) * usize::from(self.width) + usize::from(p.x);
        self.numbers.set(place, number_of(terrain));
    }

    /// The number of columns.
    pub fn width(&self) -> u8
        ensures { result ≡ self.now.width }
    {
        self.width
    }

    /// The number of rows.
    pub fn height(&self) -> u8
        ensures { result ≡ self.now.height }
    {
        self.height
    }

    /// Whether both are of one size and have the same terrain in each cell. It compares words of
    /// 16 cells.
    pub fn is_same(&self, other: &Self) -> bool
        ensures { IsTrue result ↔ (self.now ≡ other.now) }
    {
        self.width == other.width
            && self.height == other.height
            && self.numbers.is_same(&other.numbers)
    }

    /// Makes this the same as another of its size. It takes no memory.
    pub fn copy_from(&mut self, other: &Self)
        requires width { self.old.width ≡ other.now.width }
        requires height { self.old.height ≡ other.now.height }
        ensures { self.new ≡ other.now }
    {
        self.numbers.copy_from(&other.numbers);
    }

    /// There is a terrain for each cell of the size.
    pub fn whole(&self)
        ensures { IsWhole self.now }
    {
        let _width = self.width;
    }
}
