ghost use Rattle.std.specs.Prelude.{◌≡◌, ◌≢◌, ℕ, ◌+◌, ◌*◌, ◌%◌, ◌^◌, ◌<◌, ◌≤◌, false, IfOk};
ghost use Rattle.std.specs.Prelude.{IsTrue, IsFalse, MatchOption, [], length, vec_capacity};
ghost use Rattle.world_units.specs.declared.cell.CPos.{CPos};
ghost use Rattle.game_model.specs.Grid.{IsOn, HasSize};
ghost use Rattle.game_model.specs.Walks.{IsBestDirection};
ghost use Rattle.grid_routes.specs.EntryCosts.{IsCheap, land_over, entry_cost_in};
ghost use Rattle.grid_routes.specs.Beside.{IsPlaced};
ghost use Rattle.grid_routes.specs.Labels.{IsFinalLabel, IsFull, begun, label_of};
ghost use Rattle.grid_routes.specs.Held.{HasRows, IsAt};
ghost use Rattle.grid_routes.specs.Reach.{IsReached};
ghost use Rattle.grid_routes.specs.Steps.{AreQueued, FitsTogether, HasLabel, IsClear, IsExpanded};
ghost use Rattle.grid_routes.specs.Steps.{IsFilled, IsGoing, IsNext};
ghost use Rattle.grid_routes.specs.Steps.{IsOnward, IsRoute, IsSearch, Lowers, rings_left};

use crate::beside::{Placed, above, below, is_inside, left, left_of, right, right_of};
use crate::best_direction::least_lead;
use crate::buckets::{BUCKETS, Buckets};
use crate::entry_costs::{ACROSS, EntryCosts, STRAIGHT};
use crate::field::{Field, NONE};
use crate::offers::{Offers, bucket_of, offer};
use crate::reach::{Reach, goes_on, least_cost};
use crate::route::Route;
use base::{List, NoMemory};
use rule_traits::Costs;
use std::alloc::Global;
use world_units::{CPos, step};

/// A search of distances from a goal, which may stop at any level and go on later.
#[derive(Drop)]
pub(crate) struct Search {
    /// What it costs to enter each cell.
    pub(crate) entry_costs: EntryCosts,
    /// The distances so far.
    pub(crate) field: Field,
    /// The cells whose label is at least the level.
    pub(crate) buckets: Buckets,
}

impl Search {
    /// Room for searches on maps of this size. Out of memory is its only error.
    pub(crate) fn create(alloc: Global, w: u8, h: u8) -> Result<Search, NoMemory>
        ensures { IfOk result (λ search. FitsTogether w h search.entry_costs search.field
            search.buckets) }
    {
        Ok(Search {
            entry_costs: EntryCosts::create(alloc, w, h)?,
            field: Field::create(alloc, w, h)?,
            buckets: Buckets::create(alloc, w, h)?,
        })
    }

    /// Begins a search to another goal, over the same ground, that goes so far.
    fn begin(&mut self, costs: &Costs, goal: CPos, reach: Option<Reach>)
        requires room { self.old.buckets.room ≡
            self.old.entry_costs.terrain.width * self.old.entry_costs.terrain.height }
        requires size { HasSize self.old.entry_costs.terrain.width
            self.old.entry_costs.terrain.height
            self.old.field.labels }
        requires costs { IsCheap costs.now }
        requires goal { IsOn self.old.entry_costs.terrain.width self.old.entry_costs.terrain.height
            goal }
        ensures entry_costs { self.new.entry_costs ≡ record self.old.entry_costs { costs = costs.now; goal = goal } }
        ensures room { self.new.buckets.room ≡ self.old.buckets.room }
        ensures size { HasSize self.old.entry_costs.terrain.width
            self.old.entry_costs.terrain.height
            self.new.field.labels }
        ensures search { IsSearch (record { entry_cost = entry_cost_in self.new.entry_costs; goal = goal })
            self.new.field self.new.buckets }
        ensures field { self.new.field ≡ begun self.old.field goal reach }
    {
        self.entry_costs.turn_to(costs, goal);
        self.entry_costs.ground();
        self.field.begin(goal, reach);
        self.buckets.clear_all();
        self.buckets.push(0, goal);
    }

    /// Takes up a search where it stopped, over the same ground.
    fn resume(&mut self, costs: &Costs, goal: CPos)
        requires room { self.old.buckets.room ≡
            self.old.entry_costs.terrain.width * self.old.entry_costs.terrain.height }
        requires size { HasSize self.old.entry_costs.terrain.width
            self.old.entry_costs.terrain.height
            self.old.field.labels }
        requires costs { IsCheap costs.now }
        requires going { IsGoing (land_over self.old.entry_costs.terrain self.old.entry_costs.built
            costs.now
            goal) self.old.field }
        ensures entry_costs { self.new.entry_costs ≡ record self.old.entry_costs { costs = costs.now; goal = goal } }
        ensures room { self.new.buckets.room ≡ self.old.buckets.room }
        ensures size { HasSize self.old.entry_costs.terrain.width
            self.old.entry_costs.terrain.height
            self.new.field.labels }
        ensures search { IsSearch (record { entry_cost = entry_cost_in self.new.entry_costs; goal = goal })
            self.new.field self.new.buckets }
        ensures field { self.new.field ≡ self.old.field }
    {
        self.entry_costs.turn_to(costs, goal);
        self.buckets.lose();
    }

    /// Takes up the search for a goal, or begins one that goes so far.
    pub(crate) fn set_out(&mut self, going: bool, costs: &Costs, goal: CPos, reach: Option<Reach>)
        requires room { self.old.buckets.room ≡
            self.old.entry_costs.terrain.width * self.old.entry_costs.terrain.height }
        requires size { HasSize self.old.entry_costs.terrain.width
            self.old.entry_costs.terrain.height
            self.old.field.labels }
        requires costs { IsCheap costs.now }
        requires goal { IsOn self.old.entry_costs.terrain.width self.old.entry_costs.terrain.height
            goal }
        requires going { IsTrue going →
            IsGoing (land_over self.old.entry_costs.terrain self.old.entry_costs.built costs.now goal)
            self.old.field }
        ensures entry_costs { self.new.entry_costs ≡ record self.old.entry_costs { costs = costs.now; goal = goal } }
        ensures room { self.new.buckets.room ≡ self.old.buckets.room }
        ensures size { HasSize self.old.entry_costs.terrain.width
            self.old.entry_costs.terrain.height
            self.new.field.labels }
        ensures search { IsSearch (record { entry_cost = entry_cost_in self.new.entry_costs; goal = goal })
            self.new.field self.new.buckets }
        ensures resumed { IsTrue going → self.new.field ≡ self.old.field }
        ensures anew { IsFalse going → self.new.field ≡ begun self.old.field goal reach }
    {
        if going {
            self.resume(costs, goal);
        } else {
            self.begin(costs, goal, reach);
        }
    }

    /// Offers each neighbour of a cell of this level and entry cost the walk that enters the cell.
    #[inline(always)]
    fn expand(&mut self, q: CPos, entry_cost: u32, level: u32)
        requires full { IsFull self.old.field.labels }
        requires from { label_of self.old.field.labels q ≡ level }
        requires low { level < 2 ^ 31 }
        requires entry_cost { entry_cost ≡ entry_cost_in self.old.entry_costs q }
        requires some { 0 < entry_cost }
        requires cheap { entry_cost ≤ 10 }
        ensures entry_costs { self.new.entry_costs ≡ self.old.entry_costs }
        ensures same { self.new.field ≡ record self.old.field { labels = self.new.field.labels } }
        ensures lowers { Lowers (entry_cost_in self.old.entry_costs) level self.old.field.labels
            self.old.buckets self.new.field.labels self.new.buckets }
        ensures done { IsExpanded (entry_cost_in self.old.entry_costs) self.new.field.labels level q }
    {
        let (width, height) = (self.field.width(), self.field.height());
        let at = self.field.place(q);
        let here = Placed { cell: q, at };
        if is_inside(here, width, height)
            && self.entry_costs.has_size(width, height)
            && self.has_rows(level, entry_cost)
        {
            self.spread_inside(here, entry_cost, level, width, height);
        } else {
            self.spread(here, level, width, height);
        }
    }

    /// Whether the two buckets of the steps into a cell of this entry cost have rows for all of
    /// them.
    #[inline(always)]
    fn has_rows(&self, level: u32, entry_cost: u32) -> bool
        requires low { level < 2 ^ 31 }
        requires cheap { entry_cost ≤ 10 }
        ensures straight { IsTrue result →
            HasRows self.now.buckets ((level + 5 * entry_cost) % 71) 8 }
        ensures across { IsTrue result →
            HasRows self.now.buckets ((level + 7 * entry_cost) % 71) 8 }
    {
        self.buckets
            .has_rows(bucket_of(level + STRAIGHT * entry_cost))
            && self
                .buckets
                .has_rows(bucket_of(level + ACROSS * entry_cost))
    }

    /// Offers each neighbour of a cell the walk that enters the cell, where the buckets have rows
    /// for all.
    #[inline(always)]
    fn spread_inside(&mut self, q: Placed, entry_cost: u32, level: u32, width: u8, height: u8)
        requires full { IsFull self.old.field.labels }
        requires size { HasSize width height self.old.field.labels }
        requires terrain { HasSize width height self.old.entry_costs.terrain }
        requires here { IsPlaced width height q }
        requires from { label_of self.old.field.labels q.cell ≡ level }
        requires low { level < 2 ^ 31 }
        requires entry_cost { entry_cost ≡ entry_cost_in self.old.entry_costs q.cell }
        requires some { 0 < entry_cost }
        requires cheap { entry_cost ≤ 10 }
        requires straight { HasRows self.old.buckets ((level + 5 * entry_cost) % 71) 8 }
        requires across { HasRows self.old.buckets ((level + 7 * entry_cost) % 71) 8 }
        ensures entry_costs { self.new.entry_costs ≡ self.old.entry_costs }
        ensures same { self.new.field ≡ record self.old.field { labels = self.new.field.labels } }
        ensures lowers { Lowers (entry_cost_in self.old.entry_costs) level self.old.field.labels
            self.old.buckets self.new.field.labels self.new.buckets }
        ensures done { IsExpanded (entry_cost_in self.old.entry_costs) self.new.field.labels level
            q.cell }
    {
        let offers = Offers {
            straight: level + STRAIGHT * entry_cost,
            across: level + ACROSS * entry_cost,
            corners: self.entry_costs.corners(q, entry_cost, width, height),
        };
        self.field.offer_all(&mut self.buckets, q, &offers);
    }

    /// Offers each neighbour of a cell the walk that enters the cell, at its place on a map of this
    /// size.
    fn spread(&mut self, q: Placed, level: u32, width: u8, height: u8)
        requires full { IsFull self.old.field.labels }
        requires size { HasSize width height self.old.field.labels }
        requires here { IsPlaced width height q }
        requires from { label_of self.old.field.labels q.cell ≡ level }
        requires low { level < 2 ^ 31 }
        ensures entry_costs { self.new.entry_costs ≡ self.old.entry_costs }
        ensures same { self.new.field ≡ record self.old.field { labels = self.new.field.labels } }
        ensures lowers { Lowers (entry_cost_in self.old.entry_costs) level self.old.field.labels
            self.old.buckets self.new.field.labels self.new.buckets }
        ensures done { IsExpanded (entry_cost_in self.old.entry_costs) self.new.field.labels level
            q.cell }
    {
        let step_costs = self.entry_costs.step_costs(q.cell);
        let north = above(q, width, height);
        let south = below(q, width, height);
        let (field, buckets) = (&mut self.field, &mut self.buckets);
        offer(
            field,
            buckets,
            q,
            north,
            step_costs.straight,
            level,
            width,
            height,
        );
        let north_east = right_of(q, north, width, height);
        offer(
            field,
            buckets,
            q,
            north_east,
            step_costs.north_east,
            level,
            width,
            height,
        );
        offer(
            field,
            buckets,
            q,
            right(q, width, height),
            step_costs.straight,
            level,
            width,
            height,
        );
        let south_east = right_of(q, south, width, height);
        offer(
            field,
            buckets,
            q,
            south_east,
            step_costs.south_east,
            level,
            width,
            height,
        );
        offer(
            field,
            buckets,
            q,
            south,
            step_costs.straight,
            level,
            width,
            height,
        );
        let south_west = left_of(q, south, width, height);
        offer(
            field,
            buckets,
            q,
            south_west,
            step_costs.south_west,
            level,
            width,
            height,
        );
        offer(
            field,
            buckets,
            q,
            left(q, width, height),
            step_costs.straight,
            level,
            width,
            height,
        );
        let north_west = left_of(q, north, width, height);
        offer(
            field,
            buckets,
            q,
            north_west,
            step_costs.north_west,
            level,
            width,
            height,
        );
    }

    /// Expands the cells of this level from which the search goes on. One that can't be entered has
    /// nothing to offer.
    fn ring(&mut self, level: u32)
        requires full { IsFull self.old.field.labels }
        requires low { level < 2 ^ 31 }
        ensures entry_costs { self.new.entry_costs ≡ self.old.entry_costs }
        ensures same { self.new.field ≡ record self.old.field { labels = self.new.field.labels } }
        ensures lowers { Lowers (entry_cost_in self.old.entry_costs) level self.old.field.labels
            self.old.buckets self.new.field.labels self.new.buckets }
        ensures done { (i : ℕ) (q : CPos) → IsAt self.old.buckets (level % 71) i q →
            label_of self.old.field.labels q ≡ level → IsReached self.old.field.reach q level →
            IsExpanded (entry_cost_in self.old.entry_costs) self.new.field.labels level q }
    {
        let bucket = (level % BUCKETS) as usize;
        let reach = self.field.reach();
        for i in 0..self.buckets.len(bucket) {
            let q = self.buckets.get(bucket, i);
            let label = self.field.label(q);
            let entry_cost = u32::from(self.entry_costs.entry_cost(q));
            if label == level && entry_cost > 0 && goes_on(&reach, q, level) {
                self.expand(q, entry_cost, level);
            }
        }
    }

    /// Whether a cell of a bucket has this label.
    fn has_label(&self, bucket: usize, label: u32) -> bool
        requires { bucket < 71 }
        ensures found { IsTrue result → HasLabel self.now.field.labels label }
        ensures missing { IsFalse result → (i : ℕ) (p : CPos) → IsAt self.now.buckets bucket i p →
            label_of self.now.field.labels p ≢ label }
    {
        for i in 0..self.buckets.len(bucket) {
            let p = self.buckets.get(bucket, i);
            if self.field.label(p) == label {
                return true;
            }
        }
        false
    }

    /// The least label from the level on, if any cell has one.
    fn next_level(&self) -> Option<u32>
        requires { self.now.field.level < 2 ^ 30 }
        ensures { MatchOption result (IsClear self.now.field self.now.buckets
            (self.now.field.level + 71)) (λ label. IsNext self.now.field self.now.buckets label) }
    {
        let level = self.field.level();
        for k in 0..BUCKETS {
            let label = level + k;
            if self.has_label((label % BUCKETS) as usize, label) {
                return Some(label);
            }
        }
        None
    }

    /// Fills the buckets from the labels.
    fn refill(&mut self)
        requires full { IsFull self.old.field.labels }
        requires room { self.old.buckets.room ≡ length self.old.field.labels.cells }
        ensures entry_costs { self.new.entry_costs ≡ self.old.entry_costs }
        ensures field { self.new.field ≡ self.old.field }
        ensures room { self.new.buckets.room ≡ self.old.buckets.room }
        ensures whole { self.new.buckets.lost ≡ false }
        ensures queued { AreQueued self.new.field self.new.buckets }
    {
        self.buckets.clear_all();
        for y in 0..self.field.height() {
            self.refill_row(y);
        }
    }

    /// Fills the buckets from the labels of a row.
    fn refill_row(&mut self, y: u8)
        requires full { IsFull self.old.field.labels }
        requires room { self.old.buckets.room ≡ length self.old.field.labels.cells }
        requires row { y < self.old.field.labels.height }
        requires filled { IsFilled self.old.field self.old.buckets y 0 }
        ensures entry_costs { self.new.entry_costs ≡ self.old.entry_costs }
        ensures field { self.new.field ≡ self.old.field }
        ensures room { self.new.buckets.room ≡ self.old.buckets.room }
        ensures filled { IsFilled self.new.field self.new.buckets (y + 1) 0 }
    {
        for x in 0..self.field.width() {
            self.refill_cell(CPos { x, y });
        }
    }

    /// Puts a cell into its bucket, if its label is at least the level.
    fn refill_cell(&mut self, p: CPos)
        requires full { IsFull self.old.field.labels }
        requires room { self.old.buckets.room ≡ length self.old.field.labels.cells }
        requires on { IsOn self.old.field.labels.width self.old.field.labels.height p }
        requires filled { IsFilled self.old.field self.old.buckets p.y p.x }
        ensures entry_costs { self.new.entry_costs ≡ self.old.entry_costs }
        ensures field { self.new.field ≡ self.old.field }
        ensures room { self.new.buckets.room ≡ self.old.buckets.room }
        ensures filled { IsFilled self.new.field self.new.buckets p.y (p.x + 1) }
    {
        let label = self.field.label(p);
        if self.field.level() <= label && label < NONE {
            self.buckets.push((label % BUCKETS) as usize, p);
        }
    }

    /// Fills the buckets where a cell may be missing.
    fn make_whole(&mut self, goal: CPos)
        requires { IsSearch (record { entry_cost = entry_cost_in self.old.entry_costs; goal = goal }) self.old.field
            self.old.buckets }
        ensures entry_costs { self.new.entry_costs ≡ self.old.entry_costs }
        ensures field { self.new.field ≡ self.old.field }
        ensures search { IsSearch (record { entry_cost = entry_cost_in self.new.entry_costs; goal = goal })
            self.new.field self.new.buckets }
        ensures whole { self.new.buckets.lost ≡ false }
    {
        if self.buckets.has_lost() {
            self.refill();
        }
    }

    /// Expands the ring of the least label and raises the level above it.
    fn pass(&mut self, goal: CPos, label: u32)
        requires search { IsSearch (record { entry_cost = entry_cost_in self.old.entry_costs; goal = goal })
            self.old.field self.old.buckets }
        requires whole { self.old.buckets.lost ≡ false }
        requires next { IsNext self.old.field self.old.buckets label }
        requires open { self.old.field.level < NONE }
        ensures entry_costs { self.new.entry_costs ≡ self.old.entry_costs }
        ensures search { IsSearch (record { entry_cost = entry_cost_in self.new.entry_costs; goal = goal })
            self.new.field self.new.buckets }
        ensures size { HasSize self.old.field.labels.width self.old.field.labels.height
            self.new.field.labels }
        ensures reach { self.new.field.reach ≡ self.old.field.reach }
        ensures fewer { rings_left self.new.field < rings_left self.old.field }
    {
        self.ring(label);
        self.buckets.clear((label % BUCKETS) as usize);
        self.field.raise(label + 1);
    }

    /// Raises the level by a ring, or to the end where no cell is left.
    fn advance(&mut self, goal: CPos)
        requires search { IsSearch (record { entry_cost = entry_cost_in self.old.entry_costs; goal = goal })
            self.old.field self.old.buckets }
        requires open { self.old.field.level < NONE }
        ensures entry_costs { self.new.entry_costs ≡ self.old.entry_costs }
        ensures search { IsSearch (record { entry_cost = entry_cost_in self.new.entry_costs; goal = goal })
            self.new.field self.new.buckets }
        ensures size { HasSize self.old.field.labels.width self.old.field.labels.height
            self.new.field.labels }
        ensures reach { self.new.field.reach ≡ self.old.field.reach }
        ensures fewer { rings_left self.new.field < rings_left self.old.field }
    {
        self.make_whole(goal);
        match self.next_level() {
            Some(label) => self.pass(goal, label),
            None => self.field.raise(NONE),
        }
    }

    /// Goes on until the label of a cell is final. Where it can't be, or isn't, within the search's
    /// reach, the search begins again, over all cells.
    pub(crate) fn settle(&mut self, costs: &Costs, from: CPos, goal: CPos)
        requires search { IsSearch (record { entry_cost = entry_cost_in self.old.entry_costs; goal = goal })
            self.old.field self.old.buckets }
        requires turned { self.old.entry_costs ≡ record self.old.entry_costs { costs = costs.now; goal = goal } }
        requires room { self.old.buckets.room ≡
            self.old.entry_costs.terrain.width * self.old.entry_costs.terrain.height }
        requires size { HasSize self.old.entry_costs.terrain.width
            self.old.entry_costs.terrain.height
            self.old.field.labels }
        requires costs { IsCheap costs.now }
        requires goal { IsOn self.old.entry_costs.terrain.width self.old.entry_costs.terrain.height
            goal }
        ensures entry_costs { self.new.entry_costs ≡ self.old.entry_costs }
        ensures search { IsSearch (record { entry_cost = entry_cost_in self.new.entry_costs; goal = goal })
            self.new.field self.new.buckets }
        ensures size { HasSize self.old.field.labels.width self.old.field.labels.height
            self.new.field.labels }
        ensures settled { IsFinalLabel self.new.field from }
    {
        if !self.field.reaches(from, least_cost(from, goal)) {
            self.begin(costs, goal, None);
        }
        self.pass_label(from, goal);
        if !self.field.is_final(from) {
            self.begin(costs, goal, None);
            self.pass_label(from, goal);
        }
    }

    /// Goes on until the level is not below the label of a cell.
    fn pass_label(&mut self, from: CPos, goal: CPos)
        requires search { IsSearch (record { entry_cost = entry_cost_in self.old.entry_costs; goal = goal })
            self.old.field self.old.buckets }
        ensures entry_costs { self.new.entry_costs ≡ self.old.entry_costs }
        ensures search { IsSearch (record { entry_cost = entry_cost_in self.new.entry_costs; goal = goal })
            self.new.field self.new.buckets }
        ensures size { HasSize self.old.field.labels.width self.old.field.labels.height
            self.new.field.labels }
        ensures reach { self.new.field.reach ≡ self.old.field.reach }
        ensures passed { label_of self.new.field.labels from ≤ self.new.field.level }
    {
        while self.field.level() < self.field.label(from) {
            self.advance(goal);
        }
    }

    /// The walk that takes the best direction at each cell, in room for each cell of the map.
    /// `None` comes exactly where there is no walk or the cell is the goal.
    pub(crate) fn route(&self, room: Vec<CPos>, from: CPos, goal: CPos) -> Option<Route>
        requires search { IsSearch (record { entry_cost = entry_cost_in self.now.entry_costs; goal = goal })
            self.now.field self.now.buckets }
        requires on { IsOn self.now.field.labels.width self.now.field.labels.height from }
        requires settled { IsFinalLabel self.now.field from }
        requires empty { room.items ≡ [] }
        requires room { self.now.field.labels.width * self.now.field.labels.height
            ≤ vec_capacity room }
        ensures { IsRoute (record { entry_cost = entry_cost_in self.now.entry_costs; goal = goal }) from result }
    {
        let cost = self.field.label(from);
        if cost == NONE {
            return None;
        }
        if cost == 0 {
            return None;
        }
        let mut cells = room;
        cells.push_reserved(from);
        let mut at = from;
        while self.field.label(at) > 0 {
            at = self.next(at, goal);
            cells.push_reserved(at);
        }
        let cells = List::from_vec(cells);
        Some(Route { cost, cells })
    }

    /// The cell that the best step enters.
    fn next(&self, at: CPos, goal: CPos) -> CPos
        requires search { IsSearch (record { entry_cost = entry_cost_in self.now.entry_costs; goal = goal })
            self.now.field self.now.buckets }
        requires on { IsOn self.now.field.labels.width self.now.field.labels.height at }
        requires settled { IsFinalLabel self.now.field at }
        requires labelled { label_of self.now.field.labels at < NONE }
        requires away { 0 < label_of self.now.field.labels at }
        ensures { IsOnward (record { entry_cost = entry_cost_in self.now.entry_costs; goal = goal })
            self.now.field.labels at result }
    {
        match least_lead(&self.entry_costs, &self.field, at, self.field.label(at)) {
            Some(d) => match step(at, d) {
                Some(q) => q,
                None => unreachable!(),
            },
            None => unreachable!(),
        }
    }
}
