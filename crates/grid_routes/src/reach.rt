ghost use Rattle.std.specs.Prelude.{◌≡◌, ◌+◌, ◌<◌, ◌≤◌, IsTrue, IsFalse, None};
ghost use Rattle.grid_routes.specs.Reach.{IsReached, least_cost_between};

use crate::ask::Ask;
use crate::entry_costs::{ACROSS, STRAIGHT};
use crate::field::NONE;
use world_units::CPos;

/// A walk is guessed to cost more than a straight one over its usual ground by one part in so many ..
const PARTS: u32 = 8;

/// .. and by so many straight steps.
const STEPS: u32 = 8;

/// Roads that are cheaper than that ground make up for most detours: then it is one part in so many ..
const PARTS_BY_ROAD: u32 = 40;

/// .. and so many straight steps.
const STEPS_BY_ROAD: u32 = 5;

/// How far a search goes that is for one cell alone: on from no cell over which a walk from that one
/// would cost more than so much.
#[derive(Clone, Copy)]
pub(crate) struct Reach {
    /// The cell that the search is for.
    pub(crate) toward: CPos,
    /// The most that its walk is guessed to cost.
    pub(crate) most: u32,
}

impl Reach {
    /// For a walk from a cell to a goal over clear ground, or over water where clear ground can't be
    /// entered. Any guess gives the same answers; a bad one takes more time.
    pub(crate) fn around(from: CPos, ask: &Ask) -> Reach {
        let costs = &ask.costs;
        let usual = if costs.clear > 0 {
            costs.clear
        } else {
            costs.water
        };
        let straight = least_cost(from, ask.goal);
        let more = if costs.road > 0 && costs.road < usual {
            straight / PARTS_BY_ROAD + STEPS_BY_ROAD * STRAIGHT
        } else {
            straight / PARTS + STEPS * STRAIGHT
        };
        Reach {
            toward: from,
            most: (straight + more).saturating_mul(u32::from(usual)),
        }
    }

    /// Whether a walk over a cell with this label may cost at most that much.
    #[inline(always)]
    pub(crate) fn has(&self, p: CPos, label: u32) -> bool
        ensures yes { IsTrue result → label + least_cost_between p self.now.toward ≤ self.now.most }
        ensures no { IsFalse result → label + least_cost_between p self.now.toward ≤ self.now.most → ⊥ }
    {
        u64::from(label) + u64::from(least_cost(p, self.toward)) <= u64::from(self.most)
    }
}

/// Whether a search that goes so far, everywhere where there is no reach, goes on from a cell with
/// this label. From one without a label only a search that goes everywhere does.
#[inline(always)]
pub(crate) fn goes_on(reach: &Option<Reach>, p: CPos, label: u32) -> bool
    ensures yes { IsTrue result → IsReached reach.now p label }
    ensures everywhere { IsTrue result → NONE ≤ label → reach.now ≡ None }
    ensures no { IsFalse result → label < NONE → IsReached reach.now p label → ⊥ }
{
    match reach {
        Some(reach) => label < NONE && reach.has(p, label),
        None => true,
    }
}

/// What a walk between two cells costs at least, 0 to 1,785.
#[inline(always)]
pub(crate) fn least_cost(p: CPos, q: CPos) -> u32
    ensures value { result ≡ least_cost_between p q }
    ensures low { result ≤ 1_785 }
{
    let columns = u32::from(p.x.abs_diff(q.x));
    let rows = u32::from(p.y.abs_diff(q.y));
    (ACROSS - STRAIGHT) * (columns + rows) + (2 * STRAIGHT - ACROSS) * columns.max(rows)
}
