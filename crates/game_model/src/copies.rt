ghost use Rattle.std.specs.Prelude.{◌≡◌, IfOk};

use crate::actor::{Actor, ActorList};
use crate::world::World;
use base::{List, NoMemory};
use std::alloc::Global;

/// The same actors once more. Out of memory is the only error.
pub fn copy_actors(alloc: Global, actors: &[Actor]) -> Result<ActorList, NoMemory>
    ensures { IfOk result (λ copies. copies ≡ actors.now) }
{
    let mut copies = Vec::with_capacity(alloc, actors.len())?;
    for actor in actors {
        copies.push(actor.copy())?;
    }
    Ok(List::from_vec(copies))
}

impl World {
    /// The same world once more. Out of memory is its only error.
    pub fn copy(&self, alloc: Global) -> Result<World, NoMemory>
        ensures { IfOk result (λ world. world ≡ self.now) }
    {
        let actors = copy_actors(alloc, self.actors.as_slice())?;
        let ore = self.ore.copy()?;
        Ok(World {
            tick: self.tick,
            seed: self.seed,
            drawn: self.drawn,
            next_id: self.next_id,
            pace: self.pace,
            cash: self.cash.copy(),
            gone: self.gone.copy(),
            actors,
            ore,
        })
    }
}
