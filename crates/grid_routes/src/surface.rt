ghost use Rattle.std.specs.Prelude.{◌≡◌, ℕ, ◌+◌, ◌<◌, IfOk, IfSome, IsTrue};
ghost use Rattle.world_units.specs.declared.cell.CPos.{CPos};
ghost use Rattle.world_units.specs.Directions.{step_of};
ghost use Rattle.game_model.specs.Grid.{HasSize, IsOn, with_cell};
ghost use Rattle.game_model.specs.Terrain.{number_of};
ghost use Rattle.grid_routes.specs.Around.{AreAround, number_in};
ghost use Rattle.grid_routes.specs.Beside.{IsBeside, IsPlaced};
ghost use Rattle.grid_routes.specs.Labels.{IsFull};
ghost use Rattle.grid_routes.specs.Values.{value_in};
ghost use Rattle.grid_routes.specs.Footing.{ArePut, IsFooting, IsRenewed, number_at};

use crate::beside::{Placed, above, below, left, right};
use base::NoMemory;
use game_model::{Blocks, Terrain, Tiles};
use std::alloc::Global;
use std::marker::Model;
use world_units::{CPos, EAST, NORTH, SOUTH, WEST, step};

/// The number of rock.
pub(crate) const ROCK: u8 = 4;

/// The numbers of a cell's neighbours that share a side with it, that of rock where there is none.
#[derive(Clone, Copy)]
pub(crate) struct Around {
    pub(crate) north: u8,
    pub(crate) east: u8,
    pub(crate) south: u8,
    pub(crate) west: u8,
}

/// What each cell of a map counts as on the way to a goal, as the number of a terrain: its own, or
/// rock where a building stands that isn't the goal.
#[derive(Drop)]
pub(crate) struct Surface {
    width: u8,
    height: u8,
    /// The numbers, row by row.
    numbers: Vec<u8>,
}

impl Model for Surface {
    ghost use Rattle.std.specs.Prelude.{ℕ};
    ghost use Rattle.game_model.specs.Grid.{Grid};
    ghost use Rattle.grid_routes.specs.Labels.{IsFull};

    ghost Value = { Grid ℕ };

    ghost view = { λ s. record { width = s.width; height = s.height; cells = s.numbers.items } };

    ghost invariant = { λ s. IsFull (record
        { width = s.width; height = s.height; cells = s.numbers.items }) };
}

impl Surface {
    /// Rock everywhere. Out of memory is its only error.
    pub(crate) fn create(alloc: Global, w: u8, h: u8) -> Result<Surface, NoMemory>
        ensures { IfOk result (λ surface. HasSize w h surface) }
    {
        let mut numbers = Vec::new(alloc);
        numbers.resize(usize::from(w) * usize::from(h), ROCK)?;
        Ok(Surface {
            width: w,
            height: h,
            numbers,
        })
    }

    /// The number of a cell, that of rock where it isn't on the map.
    #[inline(always)]
    #[tactic(auto, unfolding(crate::specs::Values::value_in))]
    pub(crate) fn at(&self, p: CPos) -> u8
        ensures { result ≡ value_in ROCK self.now p }
    {
        if p.x < self.width && p.y < self.height {
            self.numbers[usize::from(p.y) * usize::from(self.width) + usize::from(p.x)]
        } else {
            ROCK
        }
    }

    /// Whether it is of a map of this size.
    #[inline(always)]
    pub(crate) fn has_size(&self, width: u8, height: u8) -> bool
        ensures { IsTrue result → HasSize width height self.now }
    {
        self.width == width && self.height == height
    }

    /// The numbers of a cell's neighbours that share a side with it.
    #[inline(always)]
    pub(crate) fn around(&self, q: CPos) -> Around
        ensures { AreAround self.now q result }
    {
        if q.x < self.width && q.y < self.height {
            let at = usize::from(q.y) * usize::from(self.width) + usize::from(q.x);
            self.around_placed(Placed { cell: q, at }, self.width, self.height)
        } else {
            self.around_outside(q)
        }
    }

    /// The same, for a cell at its place on the map.
    #[inline(always)]
    pub(crate) fn around_placed(&self, q: Placed, width: u8, height: u8) -> Around
        requires size { HasSize width height self.now }
        requires here { IsPlaced width height q }
        ensures { AreAround self.now q.cell result }
    {
        Around {
            north: self.number(above(q, width, height), width, height),
            east: self.number(right(q, width, height), width, height),
            south: self.number(below(q, width, height), width, height),
            west: self.number(left(q, width, height), width, height),
        }
    }

    /// The same, for a cell that may be outside.
    fn around_outside(&self, q: CPos) -> Around
        ensures { AreAround self.now q result }
    {
        Around {
            north: self.beyond(q, NORTH),
            east: self.beyond(q, EAST),
            south: self.beyond(q, SOUTH),
            west: self.beyond(q, WEST),
        }
    }

    /// The number of a cell's neighbour in direction `d`, that of rock where there is none.
    fn beyond(&self, q: CPos, d: u8) -> u8
        requires { d < 8 }
        ensures { result ≡ number_in self.now (step_of q d) }
    {
        match step(q, d) {
            Some(p) => self.at(p),
            None => ROCK,
        }
    }

    /// The number of a neighbour, that of rock where there is none.
    #[inline(always)]
    fn number(&self, n: Option<Placed>, width: u8, height: u8) -> u8
        requires size { HasSize width height self.now }
        requires there { IfSome n (IsPlaced width height) }
        ensures { (q : CPos) (d : ℕ) → IsBeside width height q d n →
            result ≡ number_in self.now (step_of q d) }
    {
        match n {
            Some(n) => self.numbers[n.at],
            None => ROCK,
        }
    }

    /// Sets the number of a cell.
    fn put(&mut self, p: CPos, number: u8)
        requires { IsOn self.old.width self.old.height p }
        ensures value { self.new ≡ with_cell self.old p number }
        ensures full { IsFull self.old }
    {
        self.numbers[usize::from(p.y) * usize::from(self.width) + usize::from(p.x)] = number;
    }

    /// Finds anew what a cell counts as. A cell that isn't on the map is passed over.
    pub(crate) fn renew(&mut self, terrain: &Tiles, blocks: &Blocks, goal: CPos, p: CPos)
        requires terrain { HasSize self.old.width self.old.height terrain.now }
        requires blocks { HasSize self.old.width self.old.height blocks.now }
        ensures { IsRenewed (number_at terrain.now blocks.now goal) self.old self.new p }
    {
        if p.x < self.width && p.y < self.height {
            self.put(p, number_on(terrain, blocks, goal, p));
        }
    }

    /// Finds anew what each cell counts as.
    pub(crate) fn renew_all(&mut self, terrain: &Tiles, blocks: &Blocks, goal: CPos)
        requires terrain { HasSize self.old.width self.old.height terrain.now }
        requires blocks { HasSize self.old.width self.old.height blocks.now }
        ensures size { HasSize self.old.width self.old.height self.new }
        ensures footing { IsFooting (number_at terrain.now blocks.now goal) self.new }
    {
        for y in 0..terrain.height() {
            self.renew_row(terrain, blocks, goal, y);
        }
    }

    /// Finds anew what each cell of a row counts as, once those of the rows above are right.
    fn renew_row(&mut self, terrain: &Tiles, blocks: &Blocks, goal: CPos, y: u8)
        requires terrain { HasSize self.old.width self.old.height terrain.now }
        requires blocks { HasSize self.old.width self.old.height blocks.now }
        requires row { y < self.old.height }
        requires put { ArePut (number_at terrain.now blocks.now goal) self.old y 0 }
        ensures size { HasSize self.old.width self.old.height self.new }
        ensures put { ArePut (number_at terrain.now blocks.now goal) self.new (y + 1) 0 }
    {
        for x in 0..terrain.width() {
            self.renew(terrain, blocks, goal, CPos { x, y });
        }
    }
}

/// The number of what a cell of the map counts as.
#[tactic(auto, unfolding(crate::specs::Footing::number_at))]
fn number_on(terrain: &Tiles, blocks: &Blocks, goal: CPos, p: CPos) -> u8
    requires on { IsOn terrain.now.width terrain.now.height p }
    requires blocks { HasSize terrain.now.width terrain.now.height blocks.now }
    ensures { result ≡ number_at terrain.now blocks.now goal p }
{
    if p == goal || !blocks.has(p) {
        number_of(terrain.get(p))
    } else {
        ROCK
    }
}

/// The number of a terrain, 0 to 4.
fn number_of(terrain: Terrain) -> u8
    ensures { result ≡ number_of terrain }
{
    match terrain {
        Terrain::Clear => 0,
        Terrain::Road => 1,
        Terrain::Rough => 2,
        Terrain::Water => 3,
        Terrain::Rock => ROCK,
    }
}
