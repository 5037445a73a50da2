ghost use Rattle.std.specs.Prelude.{◌≡◌, ◌<◌, ◌++◌, ◌∷◌, [], length, IfOk, OnOk};
ghost use Rattle.map_grid.specs.Crowd.{nobody, with_start};
ghost use Rattle.map_grid.specs.Starts.{has_cell};

use base::NoMemory;
use game_model::{Blocks, Start, StartList};
use std::alloc::Global;
use std::marker::Model;
use world_units::CPos;

/// The actors read so far, with the cells that they have: one flag for each cell of the map.
#[derive(Drop)]
pub(crate) struct Crowd {
    starts: Vec<Start>,
    taken: Blocks,
}

impl Model for Crowd {
    ghost use Rattle.map_grid.specs.Crowd.{Placed, AreMarked};

    ghost Value = { Placed };

    ghost view = { λ crowd. record {
      width = crowd.taken.width;
      height = crowd.taken.height;
      starts =
          crowd.starts.items;
    } };

    ghost invariant = { λ crowd. AreMarked crowd.starts.items crowd.taken };
}

impl Crowd {
    /// Nobody on a map of this size. Out of memory is its only error.
    #[tactic(auto, using(crate::proofs::CrowdLemmas::unmarked))]
    pub(crate) fn create(alloc: Global, width: u8, height: u8) -> Result<Crowd, NoMemory>
        ensures { IfOk result (λ crowd. crowd ≡ nobody width height) }
    {
        let taken = Blocks::create(alloc, width, height)?;
        Ok(Crowd {
            starts: Vec::new(alloc),
            taken,
        })
    }

    /// How many there are.
    pub(crate) fn len(&self) -> usize
        ensures { result ≡ length self.now.starts }
    {
        self.starts.len()
    }

    /// Whether one of them has this cell of the map.
    pub(crate) fn has(&self, cell: CPos) -> bool
        requires column { cell.x < self.now.width }
        requires row { cell.y < self.now.height }
        ensures { result ≡ has_cell self.now.starts cell }
    {
        self.taken.has(cell)
    }

    /// Adds one more, on the map. Where it is out of memory, nothing is said of what is kept.
    #[tactic(auto, using(crate::proofs::CrowdLemmas::marked))]
    pub(crate) fn add(&mut self, start: Start) -> Result<(), NoMemory>
        requires column { start.cell.x < self.old.width }
        requires row { start.cell.y < self.old.height }
        ensures { OnOk result (self.new ≡ with_start self.old start) }
    {
        let cell = start.cell;
        self.starts.push(start)?;
        self.taken.set(cell, true);
        Ok(())
    }

    /// The actors in the order in which they were added.
    pub(crate) fn into_starts(self) -> StartList
        ensures { result ≡ self.starts }
    {
        StartList::from_vec(self.starts)
    }
}
