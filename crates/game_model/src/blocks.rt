ghost use Rattle.std.specs.Prelude.{◌≡◌, ◌*◌, ◌<◌, ◌↔◌, IsTrue, false, replicate, Some, slice_get};
ghost use Rattle.std.specs.Prelude.{IfOk};
ghost use Rattle.game_model.specs.Grid.{IsWhole, place_of, with_cell};

use base::NoMemory;
use packed_lists::Bits;
use std::alloc::Global;
use std::marker::Model;
use world_units::CPos;

/// The cells of a map on which a building stands: one flag for each cell, row by row,
/// packed.
#[derive(Drop)]
pub struct Blocks {
    width: u8,
    height: u8,
    flags: Bits,
}

impl Model for Blocks {
    ghost use Rattle.std.specs.Prelude.{◌≡◌, ◌*◌, Bool, length};
    ghost use Rattle.game_model.specs.Grid.{Grid};

    ghost Value = { Grid Bool };

    ghost view = { λ b. record { width = b.width; height = b.height; cells = b.flags } };

    ghost invariant = { λ b. length b.flags ≡ b.width * b.height };
}

impl Blocks {
    /// A building nowhere. Out of memory is its only error.
    pub fn create(alloc: Global, w: u8, h: u8) -> Result<Blocks, NoMemory>
        ensures { IfOk result (λ blocks. blocks ≡ (record { width = w; height = h; cells = replicate (w * h) false })) }
    {
        let flags = Bits::clear(alloc, u32::from(w) * u32::from(h))?;
        Ok(Blocks {
            width: w,
            height: h,
            flags,
        })
    }

    /// Whether a building stands on a cell within the size.
    pub fn has(&self, p: CPos) -> bool
        requires column { p.x < self.now.width }
        requires row { p.y < self.now.height }
        ensures { slice_get self.now.cells (place_of self.now.width p) ≡ Some result }
    {
        let place = usize::from(p.y) * usize::from(self.width) + usize::from(p.x);
        self.flags.get(place)
    }

    /// Says whether a building stands on a cell within the size. The other cells stay.
    pub fn set(&mut self, p: CPos, on: bool)
        requires column { p.x < self.old.width }
        requires row { p.y < self.old.height }
        ensures { self.new ≡ with_cell self.old p on }
    {
        let place = usize::from(p.y) * usize::from(self.width) + usize::from(p.x);
        self.flags.set(place, on);
    }

    /// The number of columns.
    pub fn width(&self) -> u8
        ensures { result ≡ self.now.width }
    {
        self.width
    }

    /// The number of rows.
    pub fn height(&self) -> u8
        ensures { result ≡ self.now.height }
    {
        self.height
    }

    /// Whether both are of one size and have the same flag in each cell. It compares words of 64
    /// cells.
    pub fn is_same(&self, other: &Self) -> bool
        ensures { IsTrue result ↔ (self.now ≡ other.now) }
    {
        self.width == other.width && self.height == other.height && self.flags.is_same(&other.flags)
    }

    /// Makes this the same as another of its size. It takes no memory.
    pub fn copy_from(&mut self, other: &Self)
        requires width { self.old.width ≡ other.now.width }
        requires height { self.old.height ≡ other.now.height }
        ensures { self.new ≡ other.now }
    {
        self.flags.copy_from(&other.flags);
    }

    /// There is a flag for each cell of the size.
    pub fn whole(&self)
        ensures { IsWhole self.now }
    {
        let _width = self.width;
    }
}
