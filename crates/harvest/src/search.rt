ghost use Rattle.std.specs.Prelude.{◌≡◌, ◌<◌};
ghost use Rattle.game_model.specs.Grid.{IsOn};
ghost use Rattle.game_tick.specs.Nearest.{nearest_ore};
ghost use Rattle.harvest.specs.Ranks.{IsAbove, IsAside, IsBelow, IsBeyond, IsLeast, IsLeft};
ghost use Rattle.harvest.specs.Ranks.{IsNearestOre, IsRichIn, IsRight, IsThis, closer_of};
ghost use Rattle.harvest.specs.Ranks.{nearer_by, rank_of};

use game_model::Ore;
use world_units::{CELL, CPos, dist_sq};

/// More cells than a map has.
const PLACES: u64 = 65_536;

/// The rank of a cell of a grid of this width: by its distance, then by row, then by column.
fn rank_of(width: u8, from: CPos, p: CPos) -> u64
    ensures { result ≡ rank_of width from p }
{
    let place = u64::from(p.y) * u64::from(width) + u64::from(p.x);
    dist_sq(from, p) * PLACES + place
}

/// The one of two cells whose rank is less.
fn closer(width: u8, from: CPos, first: Option<CPos>, second: Option<CPos>) -> Option<CPos>
    ensures { result ≡ closer_of width from first second }
{
    let Some(p) = first else {
        return second;
    };
    let Some(q) = second else {
        return first;
    };
    if rank_of(width, from, p) <= rank_of(width, from, q) {
        first
    } else {
        second
    }
}

/// The cell, if it has ore.
fn if_rich(ore: &Ore, from: CPos, p: CPos) -> Option<CPos>
    requires { IsOn ore.now.width ore.now.height p }
    ensures { IsLeast ore.now.width from (IsThis ore.now p) result }
{
    if ore.get(p) > 0 { Some(p) } else { None }
}

/// The cell of a row so many columns to the left, if it has ore.
fn left_of(ore: &Ore, from: CPos, y: u8, dx: u8) -> Option<CPos>
    requires from { IsOn ore.now.width ore.now.height from }
    requires row { y < ore.now.height }
    ensures { IsLeast ore.now.width from (IsLeft ore.now from y dx) result }
{
    if dx <= from.x {
        if_rich(ore, from, CPos { x: from.x - dx, y })
    } else {
        None
    }
}

/// The cell of a row so many columns to the right, if it has ore.
fn right_of(ore: &Ore, from: CPos, y: u8, dx: u8) -> Option<CPos>
    requires from { IsOn ore.now.width ore.now.height from }
    requires row { y < ore.now.height }
    ensures { IsLeast ore.now.width from (IsRight ore.now from y dx) result }
{
    if dx < ore.width() - from.x {
        if_rich(ore, from, CPos { x: from.x + dx, y })
    } else {
        None
    }
}

/// The nearest cell with ore in a row that is so many columns from a cell, to its left or right.
fn aside(ore: &Ore, from: CPos, y: u8, dx: u8) -> Option<CPos>
    requires from { IsOn ore.now.width ore.now.height from }
    requires row { y < ore.now.height }
    ensures { IsLeast ore.now.width from (IsAside ore.now from y dx) result }
{
    let left = left_of(ore, from, y, dx);
    let right = right_of(ore, from, y, dx);
    closer(ore.width(), from, left, right)
}

/// The nearest cell with ore in a row. A row without ore is passed over at once.
#[tactic(auto, using(crate::proofs::Rows::row_empty))]
fn in_row(ore: &Ore, from: CPos, y: u8) -> Option<CPos>
    requires from { IsOn ore.now.width ore.now.height from }
    requires row { y < ore.now.height }
    ensures { IsLeast ore.now.width from (IsRichIn ore.now y) result }
{
    let _height = ore.height();
    if ore.row_count(y) == 0 {
        return None;
    }
    for dx in 0..ore.width() {
        let found = aside(ore, from, y, dx);
        if found.is_some() {
            return found;
        }
    }
    None
}

/// The nearest cell with ore that is so many rows above a cell.
fn above(ore: &Ore, from: CPos, dy: u8) -> Option<CPos>
    requires from { IsOn ore.now.width ore.now.height from }
    ensures { IsLeast ore.now.width from (IsAbove ore.now from dy) result }
{
    if dy <= from.y {
        in_row(ore, from, from.y - dy)
    } else {
        None
    }
}

/// The nearest cell with ore that is so many rows below a cell.
fn below(ore: &Ore, from: CPos, dy: u8) -> Option<CPos>
    requires from { IsOn ore.now.width ore.now.height from }
    ensures { IsLeast ore.now.width from (IsBelow ore.now from dy) result }
{
    if dy < ore.height() - from.y {
        in_row(ore, from, from.y + dy)
    } else {
        None
    }
}

/// The nearest cell with ore that is so many rows from a cell, above or below it.
fn beyond(ore: &Ore, from: CPos, dy: u8) -> Option<CPos>
    requires from { IsOn ore.now.width ore.now.height from }
    ensures { IsLeast ore.now.width from (IsBeyond ore.now from dy) result }
{
    let above = above(ore, from, dy);
    let below = below(ore, from, dy);
    closer(ore.width(), from, above, below)
}

/// Whether the cell that was found is nearer than any cell so many rows away.
fn is_nearer(from: CPos, found: Option<CPos>, dy: u8) -> bool
    ensures { result ≡ nearer_by from found dy }
{
    let Some(p) = found else {
        return false;
    };
    let rows = u64::from(CELL) * u64::from(dy);
    dist_sq(from, p) < rows * rows
}

/// The nearest cell with ore, by a search in rows from a cell of the map outwards.
fn find_ore(ore: &Ore, from: CPos) -> Option<CPos>
    requires { IsOn ore.now.width ore.now.height from }
    ensures { IsNearestOre ore.now from result }
{
    let _width = ore.width();
    let mut best = None;
    for dy in 0..ore.height() {
        if is_nearer(from, best, dy) {
            return best;
        }
        best = closer(ore.width(), from, best, beyond(ore, from, dy));
    }
    best
}

/// The cell with ore that is nearest to a cell of the map. Of those that are equally near, the
/// least row decides, then the least column. `None` exactly where no cell has ore.
pub fn nearest_ore(ore: &Ore, from: CPos) -> Option<CPos>
    requires { IsOn ore.now.width ore.now.height from }
    ensures value { result ≡ nearest_ore ore.now from }
    ensures nearest { IsNearestOre ore.now from result }
{
    let _columns = ore.width();
    let _rows = ore.height();
    find_ore(ore, from)
}
