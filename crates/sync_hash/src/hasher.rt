ghost use Rattle.std.specs.Prelude.{◌≡◌, ◌<◌, ◌≤◌, ◌⊎◌, [], ◌∷◌, true, length, slice_set, IfOk};
ghost use Rattle.game_model.specs.declared.world.World.{World};
ghost use Rattle.game_model.specs.Grid.{HasSize, place_of};
ghost use Rattle.game_model.specs.World.{AreClients, head_of};
ghost use Rattle.sync_hash.specs.Kept.{IsKeptOf, actor_number, cell_number, has_id, hash_with};
ghost use Rattle.sync_hash.specs.Kept.{hash_with_1, kept_of, mixed_more, ore_cells, with_number};
ghost use Rattle.sync_hash.specs.Kept.{without_number};
ghost use Rattle.sync_hash.specs.WorldHash.{hash_of, hash_of_1};

use crate::actor_bytes::actor_number;
use crate::actor_numbers::ActorNumbers;
use crate::header::{header_number, header_number_1};
use crate::ore_bytes::{cell_number, cell_numbers, ore_cells, sum_of};
use base::NoMemory;
use game_model::{Actor, Head, MAX_ACTORS, World};
use std::alloc::Global;
use std::marker::Model;
use world_units::CPos;

/// The parts of a world's hash, kept from turn to turn: it is told of each actor and each cell that
/// changed, and asked for the hash, which costs the header alone.
pub struct Hasher {
    width: u8,
    height: u8,
    actors: ActorNumbers,
    cells: Vec<u64>,
    // the sum of all numbers, modulo 2^64
    sum: u64,
    // how many parts, actors and cells, were hashed so far
    mixed: u64,
}

// By hand, so that what drops one needs no proof of how its parts are dropped.
impl Drop for Hasher {
    fn drop(self) {
        let Self {
            width: _,
            height: _,
            actors: _,
            cells: _,
            sum: _,
            mixed: _,
        } = self;
    }
}

impl Model for Hasher {
    ghost use Rattle.std.specs.Prelude.{◌≡◌, ◌*◌, ◌%◌, ◌^◌, length};
    ghost use Rattle.sync_hash.specs.Kept.{Kept, IsKept};

    ghost Value = { Kept };

    ghost view = { λ h. record {
      width = h.width;
      height = h.height;
      actors = h.actors;
      cells = h.cells.items;
      mixed = h.mixed;
    } };

    ghost invariant = { λ h. IsKept h.width h.height h.actors h.cells.items h.sum };
}

impl Hasher {
    /// Begins with the numbers of a world of at most [`MAX_ACTORS`] actors, whose ore has the size
    /// `w` by `h`. All memory that it ever wants is taken here; out of memory is the only error.
    pub fn create(alloc: Global, w: u8, h: u8, world: &World) -> Result<Hasher, NoMemory>
        requires actors { length world.now.actors ≤ MAX_ACTORS }
        requires size { HasSize w h world.now.ore }
        ensures { IfOk result (λ hasher. hasher ≡ kept_of w h world.now) }
    {
        let actors = ActorNumbers::of(alloc, world.actors.as_slice())?;
        let cells = cell_numbers(alloc, &world.ore)?;
        let sum = actors.sum().wrapping_add(sum_of(&cells));
        let mixed = (world.actors.len() + ore_cells(world.ore.as_slice())) as u64;
        Ok(Hasher {
            width: w,
            height: h,
            actors,
            cells,
            sum,
            mixed,
        })
    }

    /// Puts the number of an actor in under its id, or in place of the one that is there. The id is
    /// there, or fewer than [`MAX_ACTORS`] ids are.
    pub fn actor_set(&mut self, a: &Actor)
        requires { (has_id self.old.actors a.now.id ≡ true) ⊎ (length self.old.actors < MAX_ACTORS) }
        ensures { self.new ≡ (record self.old {
          actors = with_number self.old.actors a.now.id (actor_number a.now);
          mixed = mixed_more self.old.mixed 1;
        }) }
    {
        let number = actor_number(a);
        let before = self.actors.set(a.id, number);
        self.sum = self.sum.wrapping_sub(before).wrapping_add(number);
        self.mixed = self.mixed.saturating_add(1);
    }

    /// Takes the number of an id out, if it is there.
    pub fn actor_gone(&mut self, id: u32)
        ensures { self.new ≡ (record self.old { actors = without_number self.old.actors id }) }
    {
        let before = self.actors.remove(id);
        self.sum = self.sum.wrapping_sub(before);
    }

    /// Sets the number of a cell within the size. A cell without ore is not hashed, and has 0.
    pub fn ore_set(&mut self, cell: CPos, ore: u8)
        requires column { cell.x < self.old.width }
        requires row { cell.y < self.old.height }
        ensures { self.new ≡ (record self.old {
          cells = slice_set self.old.cells (place_of self.old.width cell) (cell_number cell ore);
          mixed = mixed_more self.old.mixed (ore_cells (ore ∷ []));
        }) }
    {
        let number = cell_number(cell, ore);
        let place = usize::from(cell.y) * usize::from(self.width) + usize::from(cell.x);
        let before = self.cells[place];
        self.cells[place] = number;
        self.sum = self.sum.wrapping_sub(before).wrapping_add(number);
        self.mixed = self.mixed.saturating_add(u64::from(ore != 0));
    }

    /// The hash of a world with this head, which has 1 to `MAX_CLIENTS` clients with one cash and
    /// one departure flag for each, and with what is kept. No actor and no cell is hashed for it.
    /// Where the numbers of a world's actors and cells are kept, it is that world's hash.
    #[tactic(auto, unfolding(crate::specs::Kept::hash_with))]
    pub fn hash(&self, head: &Head) -> u64
        requires { AreClients head.now.cash head.now.gone }
        ensures value { result ≡ hash_with self.now head.now }
        ensures world { (w : World) → IsKeptOf self.now w.actors w.ore → head.now ≡ head_of w →
            result ≡ hash_of w }
    {
        let header = header_number(head, self.actors.len() as u32);
        header.wrapping_add(self.sum)
    }

    /// The hash of the first version, as [`Hasher::hash`] but without the pace in its header.
    #[tactic(auto, unfolding(crate::specs::Kept::hash_with_1))]
    pub fn hash_1(&self, head: &Head) -> u64
        requires { AreClients head.now.cash head.now.gone }
        ensures value { result ≡ hash_with_1 self.now head.now }
        ensures world { (w : World) → IsKeptOf self.now w.actors w.ore → head.now ≡ head_of w →
            result ≡ hash_of_1 w }
    {
        let header = header_number_1(head, self.actors.len() as u32);
        header.wrapping_add(self.sum)
    }

    /// Parts hashed: how many actors and cells were hashed so far. It stays at the greatest `u64`.
    pub fn mixed(&self) -> u64
        ensures { result ≡ self.now.mixed }
    {
        self.mixed
    }
}
