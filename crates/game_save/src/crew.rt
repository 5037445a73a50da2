ghost use Rattle.std.specs.Prelude.{◌≡◌, ◌<◌, ◌++◌, ◌∷◌, [], length, IfOk, OnOk};
ghost use Rattle.game_model.specs.World.{is_occupied};
ghost use Rattle.game_save.specs.Crew.{no_crew, with_actor};

use base::NoMemory;
use game_model::{Actor, ActorList, Blocks};
use std::alloc::Global;
use std::marker::Model;
use world_units::CPos;

/// The actors read so far, with the cells that they have: one flag for each cell of the map.
#[derive(Drop)]
pub(crate) struct Crew {
    actors: Vec<Actor>,
    taken: Blocks,
}

impl Model for Crew {
    ghost use Rattle.game_save.specs.Crew.{Standing, AreMarked};

    ghost Value = { Standing };

    ghost view = { λ crew. record {
      width = crew.taken.width;
      height = crew.taken.height;
      actors =
          crew.actors.items;
    } };

    ghost invariant = { λ crew. AreMarked crew.actors.items crew.taken };
}

impl Crew {
    /// Nobody on a map of this size. Out of memory is its only error.
    #[tactic(auto, using(crate::proofs::CrewLemmas::unmarked))]
    pub(crate) fn create(alloc: Global, width: u8, height: u8) -> Result<Crew, NoMemory>
        ensures { IfOk result (λ crew. crew ≡ no_crew width height) }
    {
        let taken = Blocks::create(alloc, width, height)?;
        Ok(Crew {
            actors: Vec::new(alloc),
            taken,
        })
    }

    /// Whether one of them has this cell of the map.
    pub(crate) fn has(&self, cell: CPos) -> bool
        requires column { cell.x < self.now.width }
        requires row { cell.y < self.now.height }
        ensures { result ≡ is_occupied self.now.actors cell }
    {
        self.taken.has(cell)
    }

    /// Adds one more, on the map. Where it is out of memory, nothing is said of what is kept.
    #[tactic(auto, using(crate::proofs::CrewLemmas::marked))]
    pub(crate) fn add(&mut self, actor: Actor) -> Result<(), NoMemory>
        requires column { actor.cell.x < self.old.width }
        requires row { actor.cell.y < self.old.height }
        ensures { OnOk result (self.new ≡ with_actor self.old actor) }
    {
        let cell = actor.cell;
        self.actors.push(actor)?;
        self.taken.set(cell, true);
        Ok(())
    }

    /// The actors in the order in which they were added.
    pub(crate) fn into_actors(self) -> ActorList
        ensures { result ≡ self.actors }
    {
        ActorList::from_vec(self.actors)
    }
}
