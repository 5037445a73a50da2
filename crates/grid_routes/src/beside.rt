ghost use Rattle.std.specs.Prelude.{◌≡◌, IfSome};
ghost use Rattle.world_units.specs.declared.cell.CPos.{CPos};
ghost use Rattle.grid_routes.specs.Beside.{IsBeside, IsPlaced};

use world_units::CPos;

/// A cell of a map and its place, row by row.
#[derive(Clone, Copy)]
pub(crate) struct Placed {
    pub(crate) cell: CPos,
    pub(crate) at: usize,
}

/// The neighbour in the north of a cell, if there is one on a map of this size.
#[inline(always)]
pub(crate) fn above(q: Placed, width: u8, height: u8) -> Option<Placed>
    requires { IsPlaced width height q }
    ensures beside { IsBeside width height q.cell 0 result }
    ensures placed { IfSome result (IsPlaced width height) }
{
    if q.cell.y > 0 {
        Some(Placed {
            cell: CPos {
                x: q.cell.x,
                y: q.cell.y - 1,
            },
            at: q.at - usize::from(width),
        })
    } else {
        None
    }
}

/// The neighbour in the south.
#[inline(always)]
pub(crate) fn below(q: Placed, width: u8, height: u8) -> Option<Placed>
    requires { IsPlaced width height q }
    ensures beside { IsBeside width height q.cell 4 result }
    ensures placed { IfSome result (IsPlaced width height) }
{
    if q.cell.y < height - 1 {
        Some(Placed {
            cell: CPos {
                x: q.cell.x,
                y: q.cell.y + 1,
            },
            at: q.at + usize::from(width),
        })
    } else {
        None
    }
}

/// The neighbour in the east.
#[inline(always)]
pub(crate) fn right(q: Placed, width: u8, height: u8) -> Option<Placed>
    requires { IsPlaced width height q }
    ensures beside { IsBeside width height q.cell 2 result }
    ensures placed { IfSome result (IsPlaced width height) }
{
    if q.cell.x < width - 1 {
        Some(Placed {
            cell: CPos {
                x: q.cell.x + 1,
                y: q.cell.y,
            },
            at: q.at + 1,
        })
    } else {
        None
    }
}

/// The neighbour in the west.
#[inline(always)]
pub(crate) fn left(q: Placed, width: u8, height: u8) -> Option<Placed>
    requires { IsPlaced width height q }
    ensures beside { IsBeside width height q.cell 6 result }
    ensures placed { IfSome result (IsPlaced width height) }
{
    if q.cell.x > 0 {
        Some(Placed {
            cell: CPos {
                x: q.cell.x - 1,
                y: q.cell.y,
            },
            at: q.at - 1,
        })
    } else {
        None
    }
}

/// The neighbour across a corner in the east, by way of the one in the north or in the south.
#[inline(always)]
pub(crate) fn right_of(q: Placed, row: Option<Placed>, width: u8, height: u8) -> Option<Placed>
    requires here { IsPlaced width height q }
    requires row { IfSome row (IsPlaced width height) }
    ensures above { IsBeside width height q.cell 0 row →
        IsBeside width height q.cell 1 result }
    ensures below { IsBeside width height q.cell 4 row →
        IsBeside width height q.cell 3 result }
    ensures placed { IfSome result (IsPlaced width height) }
{
    match row {
        Some(n) => right(n, width, height),
        None => None,
    }
}

/// The neighbour across a corner in the west, likewise.
#[inline(always)]
pub(crate) fn left_of(q: Placed, row: Option<Placed>, width: u8, height: u8) -> Option<Placed>
    requires here { IsPlaced width height q }
    requires row { IfSome row (IsPlaced width height) }
    ensures above { IsBeside width height q.cell 0 row →
        IsBeside width height q.cell 7 result }
    ensures below { IsBeside width height q.cell 4 row →
        IsBeside width height q.cell 5 result }
    ensures placed { IfSome result (IsPlaced width height) }
{
    match row {
        Some(n) => left(n, width, height),
        None => None,
    }
}

/// Whether a cell has all eight neighbours on a map of this size.
#[inline(always)]
pub(crate) fn is_inside(q: Placed, width: u8, height: u8) -> bool
    requires { IsPlaced width height q }
{
    q.cell.x > 0 && q.cell.x < width - 1 && q.cell.y > 0 && q.cell.y < height - 1
}
