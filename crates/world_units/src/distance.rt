ghost use Rattle.std.specs.Prelude.{◌≡◌, ◌↔◌};
ghost use Rattle.world_units.specs.Cells.{dist_sq_of};

use crate::cell::{CELL, CPos};

/// A distance in units, of which a cell has 1024.
#[derive(Clone, Copy, Debug, Default, PartialEq, Eq, PartialOrd, Ord, Hash)]
pub struct WDist(
    /// The units, any `u32`.
    pub u32,
);

/// The squared distance of the centres of two cells, in square units: at most 136,367,308,800.
pub fn dist_sq(a: CPos, b: CPos) -> u64
    ensures value { result ≡ dist_sq_of a b }
    ensures symmetric { result ≡ dist_sq_of b a }
    ensures zero { (result ≡ 0) ↔ (a ≡ b) }
{
    let dx = u64::from(CELL) * u64::from(a.x.abs_diff(b.x));
    let dy = u64::from(CELL) * u64::from(a.y.abs_diff(b.y));
    dx * dx + dy * dy
}
