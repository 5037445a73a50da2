ghost use Rattle.std.specs.Prelude.{◌≡◌, ◌↔◌, ◌<◌, ◌≤◌, ◌&&◌, if◌then◌else◌, IfOk, IsTrue};
ghost use Rattle.std.specs.Prelude.{nat_lt, slice_index_or};
ghost use Rattle.world_units.specs.Directions.{step_of};
ghost use Rattle.game_model.specs.Grid.{HasSize};
ghost use Rattle.game_model.specs.Walks.{step_cost_of, is_free};
ghost use Rattle.grid_routes.specs.Beside.{IsPlaced};
ghost use Rattle.grid_routes.specs.StepCosts.{AreStepCosts, step_costs_by};
ghost use Rattle.grid_routes.specs.Footing.{charges_of};
ghost use Rattle.grid_routes.specs.EntryCosts.{IsCheap, IsGround, entry_cost_in};

use crate::beside::Placed;
use crate::step_costs::{Corners, StepCosts};
use crate::surface::Surface;
use base::NoMemory;
use game_model::{Blocks, Map, Tiles};
use rule_traits::Costs;
use std::alloc::Global;
use std::marker::Model;
use world_units::{CPos, DIRECTIONS, step};

/// What a step straight on costs on ground of cost 1.
pub(crate) const STRAIGHT: u32 = 5;

/// What a step across a corner costs on ground of cost 1.
pub(crate) const ACROSS: u32 = 7;

/// How many terrains there are.
const TERRAINS: usize = 5;

/// What it costs to enter each cell of a map on the way to a goal, 0 to 10: 0 where it can't be
/// entered.
#[derive(Drop)]
pub(crate) struct EntryCosts {
    /// The terrain of the map, which is kept from one question to the next.
    terrain: Tiles,
    /// Its buildings, likewise.
    blocks: Blocks,
    /// What entering each kind of ground costs.
    costs: Costs,
    /// The cell to go to.
    goal: CPos,
    /// What each cell counts as on the way to the goal.
    surface: Surface,
    /// What entering each terrain costs, by its number.
    charges: [u8; TERRAINS],
}

impl Model for EntryCosts {
    ghost use Rattle.grid_routes.specs.EntryCosts.{AreEntryCosts, Ground};

    ghost Value = { Ground };

    ghost view = { λ t. record {
      terrain = t.terrain;
      built = t.blocks;
      costs = t.costs;
      goal =
          t.goal;
    } };

    ghost invariant = { λ t. AreEntryCosts (record
        { terrain = t.terrain; built = t.blocks; costs = t.costs; goal = t.goal }) t.surface t.charges };
}

impl EntryCosts {
    /// The entry costs of clear ground that can't be entered. Out of memory is its only error.
    pub(crate) fn create(alloc: Global, w: u8, h: u8) -> Result<EntryCosts, NoMemory>
        ensures { IfOk result (λ entry_costs. HasSize w h entry_costs.terrain) }
    {
        let terrain = Tiles::create(alloc, w, h)?;
        let blocks = Blocks::create(alloc, w, h)?;
        let goal = CPos { x: 0, y: 0 };
        let mut surface = Surface::create(alloc, w, h)?;
        surface.renew_all(&terrain, &blocks, goal);
        let costs = Costs {
            clear: 0,
            road: 0,
            rough: 0,
            water: 0,
        };
        Ok(EntryCosts {
            terrain,
            blocks,
            costs,
            goal,
            surface,
            charges: charges(&costs),
        })
    }

    /// Whether they are over this terrain and these buildings.
    pub(crate) fn is_over(&self, map: &Map, blocks: &Blocks) -> bool
        ensures { IsTrue result ↔ ((self.now.terrain ≡ map.now.terrain) ×
            (self.now.built ≡ blocks.now)) }
    {
        self.terrain.is_same(&map.terrain) && self.blocks.is_same(blocks)
    }

    /// Takes in terrain and buildings. It takes no memory.
    pub(crate) fn take_ground(&mut self, map: &Map, blocks: &Blocks)
        requires terrain { HasSize self.old.terrain.width self.old.terrain.height map.now.terrain }
        requires blocks { HasSize self.old.terrain.width self.old.terrain.height blocks.now }
        ensures { self.new ≡ record self.old { terrain = map.now.terrain; built = blocks.now } }
    {
        self.terrain.copy_from(&map.terrain);
        self.blocks.copy_from(blocks);
        self.surface
            .renew_all(&self.terrain, &self.blocks, self.goal);
    }

    /// Turns to a goal and to costs.
    pub(crate) fn turn_to(&mut self, costs: &Costs, goal: CPos)
        requires { IsCheap costs.now }
        ensures { self.new ≡ record self.old { costs = costs.now; goal = goal } }
    {
        let last = self.goal;
        self.costs = *costs;
        self.charges = charges(costs);
        self.goal = goal;
        self.surface.renew(&self.terrain, &self.blocks, goal, last);
        self.surface.renew(&self.terrain, &self.blocks, goal, goal);
    }

    /// The sizes of terrain and buildings agree, and the costs are cheap.
    pub(crate) fn ground(&self)
        ensures { IsGround self.now }
    {
        let _goal = self.goal;
    }

    /// What it costs to enter a cell, 0 where it can't be entered or isn't on the map.
    #[inline(always)]
    pub(crate) fn entry_cost(&self, p: CPos) -> u8
        ensures value { result ≡ entry_cost_in self.now p }
        ensures cheap { result ≤ 10 }
    {
        charge(&self.charges, self.surface.at(p))
    }

    /// Whether the neighbour of a cell in direction `d` can be entered.
    #[inline(always)]
    fn is_free(&self, p: CPos, d: u8) -> bool
        requires { d < 8 }
        ensures { result ≡ is_free (entry_cost_in self.now) (step_of p d) }
    {
        match step(p, d) {
            Some(q) => self.entry_cost(q) > 0,
            None => false,
        }
    }

    /// What the step from a cell in direction `d` costs that enters `q`, 0 where it isn't allowed.
    #[tactic(auto, unfolding(game_model::specs::Walks::step_cost_of))]
    pub(crate) fn step_cost(&self, p: CPos, d: u8, q: CPos) -> u32
        requires { d < 8 }
        ensures value { result ≡ step_cost_of (entry_cost_in self.now) p d q }
        ensures cheap { result ≤ 70 }
    {
        if d % 2 == 0 {
            STRAIGHT * u32::from(self.entry_cost(q))
        } else if self.is_free(p, (d + 1) % DIRECTIONS) && self.is_free(p, (d + 7) % DIRECTIONS) {
            ACROSS * u32::from(self.entry_cost(q))
        } else {
            0
        }
    }

    /// Whether they are over ground of this size.
    #[inline(always)]
    pub(crate) fn has_size(&self, width: u8, height: u8) -> bool
        ensures { IsTrue result → HasSize width height self.now.terrain }
    {
        self.surface.has_size(width, height)
    }

    /// Across which corners the cell at a place of the map, of this entry cost, can be entered.
    #[inline(always)]
    pub(crate) fn corners(&self, q: Placed, entry_cost: u32, width: u8, height: u8) -> Corners
        requires size { HasSize width height self.now.terrain }
        requires here { IsPlaced width height q }
        requires entry_cost { entry_cost ≡ entry_cost_in self.now q.cell }
        requires cheap { entry_cost ≤ 10 }
        ensures { AreStepCosts (entry_cost_in self.now) q.cell (step_costs_by entry_cost result) }
    {
        let around = self.surface.around_placed(q, width, height);
        let north = is_open(&self.charges, around.north);
        let east = is_open(&self.charges, around.east);
        let south = is_open(&self.charges, around.south);
        let west = is_open(&self.charges, around.west);
        Corners {
            north_east: are_both(north, east),
            south_east: are_both(east, south),
            south_west: are_both(south, west),
            north_west: are_both(west, north),
        }
    }

    /// What the steps into a cell cost from its neighbours.
    #[inline(always)]
    pub(crate) fn step_costs(&self, q: CPos) -> StepCosts
        ensures { AreStepCosts (entry_cost_in self.now) q result }
    {
        let entry_cost = u32::from(self.entry_cost(q));
        let across = ACROSS * entry_cost;
        let around = self.surface.around(q);
        let north = is_open(&self.charges, around.north);
        let east = is_open(&self.charges, around.east);
        let south = is_open(&self.charges, around.south);
        let west = is_open(&self.charges, around.west);
        StepCosts {
            straight: STRAIGHT * entry_cost,
            north_east: step_cost_between(north, east, across),
            south_east: step_cost_between(east, south, across),
            south_west: step_cost_between(south, west, across),
            north_west: step_cost_between(west, north, across),
        }
    }
}

/// Whether both cells beside a step are free.
#[inline(always)]
fn are_both(left: bool, right: bool) -> bool
    ensures { result ≡ left && right }
{
    left && right
}

/// What a step across a corner costs, 0 where a cell beside it isn't free.
fn step_cost_between(left: bool, right: bool, step_cost: u32) -> u32
    ensures { result ≡ if left && right then step_cost else 0 }
{
    if left && right { step_cost } else { 0 }
}

/// What entering each terrain costs, by its number.
fn charges(costs: &Costs) -> [u8; TERRAINS]
    ensures { result ≡ charges_of costs.now }
{
    [costs.clear, costs.road, costs.rough, costs.water, 0]
}

/// What entering the terrain of this number costs, 0 where it is no terrain's.
#[inline(always)]
fn charge(charges: &[u8; TERRAINS], number: u8) -> u8
    ensures { result ≡ slice_index_or charges.now number 0 }
{
    match charges.get(usize::from(number)) {
        Some(charge) => *charge,
        None => 0,
    }
}

/// Whether the terrain of this number can be entered.
#[inline(always)]
fn is_open(charges: &[u8; TERRAINS], number: u8) -> bool
    ensures { result ≡ nat_lt 0 (slice_index_or charges.now number 0) }
{
    charge(charges, number) > 0
}
