ghost use Rattle.std.specs.Prelude.{◌≡◌};
ghost use Rattle.shroud.specs.Discs.{covers, disc_of, IsDisc, IsSpan};

use world_units::{CELL, CPos};

/// Square units of a cell.
const SQUARE_CELL: u64 = 1_048_576;

/// Numbers in a row, from the first up to the end, which is not one of them.
#[derive(Clone, Copy, Debug, Drop)]
pub(crate) struct Span {
    pub(crate) first: u8,
    pub(crate) end: u8,
}

/// The cells within a range of a cell.
#[derive(Clone, Copy, Debug, Drop)]
pub(crate) struct Disc {
    /// The cell in its middle.
    pub(crate) centre: CPos,
    /// How far its farthest cell in a row or a column can be, in cells.
    pub(crate) reach: u32,
    /// The greatest squared distance of its cells, in square cells.
    pub(crate) most: u64,
}

/// The numbers below the side that are at most so far from the middle.
fn span_around(middle: u8, reach: u32, side: u8) -> Span
    ensures { IsSpan middle reach side result }
{
    let (middle, reach) = (u64::from(middle), u64::from(reach));
    let end = u64::from(side).min(middle + reach + 1);
    let first = middle.saturating_sub(reach).min(end);
    Span {
        first: first as u8,
        end: end as u8,
    }
}

impl Disc {
    /// The cells within a range in units, of which a cell has [`CELL`].
    #[tactic(auto, using(crate::proofs::DiscLemmas::disc_is))]
    pub(crate) fn of(centre: CPos, range: u32) -> Disc
        ensures value { result ≡ disc_of centre range }
        ensures disc { IsDisc result }
    {
        let units = u64::from(range);
        Disc {
            centre,
            reach: range / CELL,
            most: units * units / SQUARE_CELL,
        }
    }

    /// The rows of a map of this height that can have cells of the disc.
    pub(crate) fn rows(&self, height: u8) -> Span
        ensures { IsSpan self.now.centre.y self.now.reach height result }
    {
        span_around(self.centre.y, self.reach, height)
    }

    /// The columns of a map of this width that can have cells of the disc.
    pub(crate) fn columns(&self, width: u8) -> Span
        ensures { IsSpan self.now.centre.x self.now.reach width result }
    {
        span_around(self.centre.x, self.reach, width)
    }

    /// Whether the cell of a column and a row is one of the disc's.
    pub(crate) fn covers(&self, x: u8, y: u8) -> bool
        ensures { result ≡ covers self.now x y }
    {
        let across = u64::from(self.centre.x.abs_diff(x));
        let down = u64::from(self.centre.y.abs_diff(y));
        across * across + down * down <= self.most
    }
}
