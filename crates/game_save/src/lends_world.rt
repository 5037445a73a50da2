ghost use Rattle.std.specs.Prelude.{◌≡◌, length, slice_get};
ghost use Rattle.std.specs.Option.{option_copied};
ghost use Rattle.game_model.specs.declared.world.World.{World};
ghost use Rattle.game_model.specs.World.{head_of, world_with};

use game_model::{Actor, Head, Ore, World};

/// Whatever has a world and lends it part by part, as a game does with a table of its actors.
pub trait LendsWorld {
    /// Its world.
    ghost world_of: { Self → World };

    /// All of the world but its actors and its ore.
    fn head(&self) -> &Head
        ensures { world_with result.now (world_of self.now).actors (world_of self.now).ore
            ≡ world_of self.now };

    /// The number of actors.
    fn actor_count(&self) -> usize
        ensures { result ≡ length (world_of self.now).actors };

    /// The i-th actor by rising id, from 0. `None` exactly where there are not so many.
    fn actor_at(&self, i: usize) -> Option<&Actor>
        ensures { option_copied result ≡ slice_get (world_of self.now).actors i };

    /// The ore of each cell.
    fn ore(&self) -> &Ore
        ensures { result.now ≡ (world_of self.now).ore };
}

/// A world that lends its parts, and its head, which a world has field by field.
#[derive(Drop)]
pub(crate) struct WorldParts<'a> {
    pub(crate) head: Head,
    pub(crate) world: &'a World,
}

impl<'a> LendsWorld for WorldParts<'a> {
    ghost world_of = { λ parts. world_with parts.head parts.world.now.actors parts.world.now.ore };

    fn head(&self) -> &Head {
        &self.head
    }

    fn actor_count(&self) -> usize {
        self.world.actors.len()
    }

    fn actor_at(&self, i: usize) -> Option<&Actor> {
        self.world.actors.as_slice().get(i)
    }

    fn ore(&self) -> &Ore {
        &self.world.ore
    }
}

/// The head of a world.
pub(crate) fn head_of(w: &World) -> Head
    ensures { result ≡ head_of w.now }
{
    Head {
        tick: w.tick,
        seed: w.seed,
        drawn: w.drawn,
        next_id: w.next_id,
        pace: w.pace,
        cash: w.cash.copy(),
        gone: w.gone.copy(),
    }
}
