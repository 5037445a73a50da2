//! A neighbour of a cell is offered the walk that enters the cell.

ghost use Rattle.std.specs.Prelude.{◌≡◌, ℕ, ◌+◌, ◌*◌, ◌%◌, ◌^◌, ◌<◌, ◌≤◌, ◌&&◌, nat_lt, length};
ghost use Rattle.std.specs.Prelude.{IfSome, if◌then◌else◌, slice_index_or, slice_set};
ghost use Rattle.std.specs.Int.{from_bool};
ghost use Rattle.world_units.specs.declared.cell.CPos.{CPos};
ghost use Rattle.game_model.specs.Grid.{HasSize};
ghost use Rattle.grid_routes.specs.Beside.{IsBeside, IsPlaced};
ghost use Rattle.grid_routes.specs.StepCosts.{IsStepCostFrom};
ghost use Rattle.grid_routes.specs.Held.{Shelves};
ghost use Rattle.grid_routes.specs.Labels.{IsFull, label_of};
ghost use Rattle.grid_routes.specs.Steps.{IsOffered, IsRelaxed};
ghost use Rattle.grid_routes.specs.Spreading.{AreOffers, HoldsIn, IsOfferTo, IsSpread, field_of};
ghost use Rattle.grid_routes.specs.Spreading.{given_label, grid_of, is_given, with_bucket};

use crate::beside::{Placed, above, below, left, left_of, right, right_of};
use crate::buckets::{BUCKETS, Buckets};
use crate::field::{Field, NONE};
use crate::step_costs::Corners;
use world_units::CPos;

/// Offers a neighbour of a cell of this level the walk that enters the cell, by a step of this
/// cost. No step is allowed where it is 0.
#[inline(always)]
pub(crate) fn offer(
    field: &mut Field,
    buckets: &mut Buckets,
    q: Placed,
    n: Option<Placed>,
    step_cost: u32,
    level: u32,
    width: u8,
    height: u8,
)
    requires size { HasSize width height field.old.labels }
    requires there { IfSome n (IsPlaced width height) }
    requires from { label_of field.old.labels q.cell ≡ level }
    requires low { level < 2 ^ 31 }
    requires cheap { step_cost ≤ 70 }
    ensures size { HasSize width height field.new.labels }
    ensures stays { label_of field.new.labels q.cell ≡ level }
    ensures offers { (entry_cost : CPos → ℕ) (d : ℕ) → d < 8 →
        IsStepCostFrom entry_cost q.cell d step_cost →
        IsBeside width height q.cell d n →
        IsOffered entry_cost q.cell d level field.old buckets.old field.new buckets.new }
{
    if step_cost > 0 {
        if let Some(n) = n {
            relax(field, buckets, n, level + step_cost);
        }
    }
}

/// Lowers the label of a cell of the map, if it is above this, and puts the cell into its bucket.
#[inline(always)]
fn relax(field: &mut Field, buckets: &mut Buckets, n: Placed, label: u32)
    requires { IsPlaced field.old.labels.width field.old.labels.height n }
    ensures relaxed { IsRelaxed field.old buckets.old field.new buckets.new n.cell label }
    ensures size { HasSize field.old.labels.width field.old.labels.height field.new.labels }
{
    if label < field.label_at(n) {
        field.lower_at(n, label);
        buckets.push((label % BUCKETS) as usize, n.cell);
    }
}

/// What a cell of a level offers its neighbours.
#[derive(Clone, Copy)]
pub(crate) struct Offers {
    /// The label of a neighbour that shares a side.
    pub(crate) straight: u32,
    /// The label of a neighbour across a corner.
    pub(crate) across: u32,
    /// Across which corners the cell can be entered.
    pub(crate) corners: Corners,
}

/// Offers all neighbours of a cell their labels, over the labels and the cells of the buckets as
/// slices; `straight` and `across` count the cells of the buckets of the two labels, which have rows
/// for all. A neighbour's label and the next cell of its bucket are written in any case, so that
/// nothing has to be decided by a jump.
#[inline(always)]
pub(crate) fn offer_all(
    labels: &mut [u32],
    cells: &mut [CPos],
    straight: &mut usize,
    across: &mut usize,
    q: Placed,
    offers: &Offers,
    width: u8,
    height: u8,
)
    requires full { IsFull (grid_of width height labels.old) }
    requires here { IsPlaced width height q }
    requires straight_rows { (straight.old + 8) * 71 ≤ length cells.old }
    requires across_rows { (across.old + 8) * 71 ≤ length cells.old }
    ensures labels { length labels.new ≡ length labels.old }
    ensures cells { length cells.new ≡ length cells.old }
    ensures straight_grows { straight.new ≤ straight.old + 8 }
    ensures across_grows { across.new ≤ across.old + 8 }
    ensures spread { (shelves : Shelves) (entry_cost : CPos → ℕ) (level : ℕ) →
        HoldsIn shelves (offers.now.straight % 71) cells.old straight.old →
        HoldsIn shelves (offers.now.across % 71) cells.old across.old →
        AreOffers entry_cost q.cell level offers.now →
        label_of (grid_of width height labels.old) q.cell ≡ level →
        IsSpread entry_cost q.cell level (grid_of width height labels.old) shelves
        (grid_of width height labels.new)
        (with_bucket (with_bucket shelves (offers.now.straight % 71) cells.new straight.new)
        (offers.now.across % 71) cells.new across.new) }
{
    let corners = offers.corners;
    let north = above(q, width, height);
    let south = below(q, width, height);
    let east = right(q, width, height);
    let west = left(q, width, height);
    let north_east = right_of(q, north, width, height);
    let south_east = right_of(q, south, width, height);
    let south_west = left_of(q, south, width, height);
    let north_west = left_of(q, north, width, height);
    let side = offers.straight;
    let corner = offers.across;
    try_offer(labels, cells, straight, north, true, side, width, height);
    try_offer(
        labels,
        cells,
        across,
        north_east,
        corners.north_east,
        corner,
        width,
        height,
    );
    try_offer(labels, cells, straight, east, true, side, width, height);
    try_offer(
        labels,
        cells,
        across,
        south_east,
        corners.south_east,
        corner,
        width,
        height,
    );
    try_offer(labels, cells, straight, south, true, side, width, height);
    try_offer(
        labels,
        cells,
        across,
        south_west,
        corners.south_west,
        corner,
        width,
        height,
    );
    try_offer(labels, cells, straight, west, true, side, width, height);
    try_offer(
        labels,
        cells,
        across,
        north_west,
        corners.north_west,
        corner,
        width,
        height,
    );
}

/// Offers a neighbour of a cell this label, where the step is allowed. The bucket of the label,
/// which holds so many cells, has a row for one more.
#[inline(always)]
fn try_offer(
    labels: &mut [u32],
    cells: &mut [CPos],
    len: &mut usize,
    n: Option<Placed>,
    allowed: bool,
    label: u32,
    width: u8,
    height: u8,
)
    requires full { IsFull (grid_of width height labels.old) }
    requires there { IfSome n (IsPlaced width height) }
    requires row { (len.old + 1) * 71 ≤ length cells.old }
    ensures labels { length labels.new ≡ length labels.old }
    ensures cells { length cells.new ≡ length cells.old }
    ensures grows { len.new ≤ len.old + 1 }
    ensures offers { (shelves : Shelves) (entry_cost : CPos → ℕ) (q : CPos) (d level : ℕ) →
        HoldsIn shelves (label % 71) cells.old len.old →
        IsOfferTo entry_cost (grid_of width height labels.old) q d level n allowed label →
        IsOffered entry_cost q d level (field_of width height labels.old) shelves
        (field_of width height labels.new) (with_bucket shelves (label % 71) cells.new len.new) }
{
    if let Some(n) = n {
        try_relax(labels, cells, len, n, allowed, label);
    }
}

/// Lowers the label at a place, if the step is allowed and it is above this, and counts the cell,
/// which is written after the last one of its bucket, only then.
#[inline(always)]
fn try_relax(
    labels: &mut [u32],
    cells: &mut [CPos],
    len: &mut usize,
    n: Placed,
    allowed: bool,
    label: u32,
)
    requires place { n.at < length labels.old }
    requires row { (len.old + 1) * 71 ≤ length cells.old }
    ensures labels { labels.new ≡ slice_set labels.old n.at
        (given_label allowed label (slice_index_or labels.old n.at NONE)) }
    ensures cells { cells.new ≡ slice_set cells.old (len.old * 71 + label % 71) n.cell }
    ensures len { len.new ≡
        len.old + from_bool (is_given allowed label (slice_index_or labels.old n.at NONE)) }
{
    let last = labels[n.at];
    let low = is_lower(allowed, label, last);
    labels[n.at] = lesser(low, label, last);
    cells[*len * 71 + bucket_of(label)] = n.cell;
    *len += usize::from(low);
}

/// The bucket of the cells with this label.
#[inline(always)]
pub(crate) fn bucket_of(label: u32) -> usize
    ensures { result ≡ label % 71 }
{
    (label % BUCKETS) as usize
}

/// Whether a step is allowed and its label lower than the last one.
#[inline(always)]
fn is_lower(allowed: bool, label: u32, last: u32) -> bool
    ensures { result ≡ allowed && nat_lt label last }
{
    allowed && label < last
}

/// The label if it is lower, or else the last one.
#[inline(always)]
fn lesser(low: bool, label: u32, last: u32) -> u32
    ensures { result ≡ if low then label else last }
{
    if low { label } else { last }
}
