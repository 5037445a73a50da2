use crate::blocks::{blocks_of, clear_dead};
use crate::departures::apply_departures;
use crate::summing::actors_sum;
use actor_table::ActorTable;
use base::NoMemory;
use game_model::{Actor, Blocks, Head, Map, Ore, World};
use game_orders::Frame;
use grid_routes::Router;
use rule_traits::Rules;
use std::alloc::Global;
use std::marker::Model;
use std::rc::Rc;
use sync_hash::{Hasher, lent_hash, lent_hash_1};
use twister::Twister;

/// A world in which actors act, and what it stands on.
#[derive(Drop)]
pub(crate) struct Scene {
    pub(crate) rules: Rc<Rules>,
    pub(crate) map: Rc<Map>,
    pub(crate) head: Head,
    pub(crate) table: ActorTable,
    pub(crate) ore: Ore,
    pub(crate) blocks: Blocks,
    pub(crate) router: Router,
    pub(crate) dice: Twister,
}

impl Model for Scene {
    ghost use Rattle.game_model.specs.World.{world_with};
    ghost use Rattle.tick_core.specs.Live.{Standing};
    ghost use Rattle.tick_core.specs.Scene.{IsScene};

    ghost Value = { Standing };

    ghost view = { λ s. record {
      setup = record { rules = s.rules.value; map = s.map.value };
      world = world_with s.head s.table.actors s.ore;
    } };

    ghost invariant = { λ s. IsScene (record { rules = s.rules.value; map = s.map.value })
        (world_with s.head s.table.actors s.ore) s.table s.blocks s.router s.dice };
}

impl Scene {
    ghost use Rattle.std.specs.Prelude.{◌≡◌, ◌+◌, ◌<◌, ◌^◌, IfOk, length, slice_get};
    ghost use Rattle.std.specs.Option.{option_copied};
    ghost use Rattle.game_model.specs.World.{clients_of, world_with};
    ghost use Rattle.game_tick.specs.Turn.{buried};
    ghost use Rattle.game_model.specs.ValidMap.{IsSetup};
    ghost use Rattle.sync_hash.specs.Kept.{IsKeptOf};
    ghost use Rattle.sync_hash.specs.WorldHash.{hash_of, hash_of_1};
    ghost use Rattle.tick_core.specs.Scene.{IsActing};
    ghost use Rattle.tick_core.specs.Ordered.{IsReady};
    ghost use Rattle.game_tick.specs.Departures.{with_departures};

    /// A valid world, with the memory for all that ticks need. Out of memory is the only error.
    pub(crate) fn of(
        alloc: Global,
        rules: Rc<Rules>,
        map: Rc<Map>,
        world: World,
    ) -> Result<Scene, NoMemory>
        requires setup { IsSetup (record { rules = rules.value; map = map.value }) }
        requires valid { IsReady (record { rules = rules.value; map = map.value }) world world }
        ensures { IfOk result (λ scene. scene ≡ (record { setup = record { rules = rules.value; map = map.value }; world = world })) }
    {
        let (width, height) = (map.width, map.height);
        let table = ActorTable::filled(alloc, width, height, world.actors.as_slice())?;
        let blocks = blocks_of(alloc, &rules, &map, world.actors.as_slice())?;
        let mut router = Router::create(alloc, width, height)?;
        router.look(&map, &blocks);
        let dice = Twister::at(world.seed, world.drawn);
        let (head, ore) = world.into_head_and_ore();
        Ok(Scene {
            rules,
            map,
            head,
            table,
            ore,
            blocks,
            router,
            dice,
        })
    }

    /// The hash of the world, of which this is kept.
    pub(crate) fn hash(&self, hasher: &Hasher) -> u64
        requires { IsKeptOf hasher.now self.now.world.actors self.now.world.ore }
        ensures { result ≡ hash_of self.now.world }
    {
        hasher.hash(&self.head)
    }

    /// The hash of the first version of the world, of which this is kept.
    pub(crate) fn hash_1(&self, hasher: &Hasher) -> u64
        requires { IsKeptOf hasher.now self.now.world.actors self.now.world.ore }
        ensures { result ≡ hash_of_1 self.now.world }
    {
        hasher.hash_1(&self.head)
    }

    /// The hash of the world. It costs all actors and all cells.
    pub(crate) fn whole_hash(&self) -> u64
        ensures { result ≡ hash_of self.now.world }
    {
        let _dice = &self.dice;
        let sum = actors_sum(&self.table);
        lent_hash(&self.head, self.table.len() as u32, sum, &self.ore)
    }

    /// The hash of the first version of the world. It costs all actors and all cells.
    pub(crate) fn whole_hash_1(&self) -> u64
        ensures { result ≡ hash_of_1 self.now.world }
    {
        let _dice = &self.dice;
        let sum = actors_sum(&self.table);
        lent_hash_1(&self.head, self.table.len() as u32, sum, &self.ore)
    }

    /// How many random words were drawn so far.
    pub(crate) fn drawn(&self) -> u64
        ensures { result ≡ self.now.world.drawn }
    {
        self.head.drawn
    }

    /// The id of the next actor.
    pub(crate) fn next_id(&self) -> u32
        ensures { result ≡ self.now.world.next_id }
    {
        self.head.next_id
    }

    /// The world as it is now. Out of memory is the only error.
    pub(crate) fn snapshot(&self, alloc: Global) -> Result<World, NoMemory>
        ensures { IfOk result (λ world. world ≡ self.now.world) }
    {
        let actors = self.table.copy_actors(alloc)?;
        let ore = self.ore.copy()?;
        Ok(self.head.world_with(actors, ore))
    }

    /// The number of actors.
    pub(crate) fn actor_count(&self) -> usize
        ensures { result ≡ length self.now.world.actors }
    {
        let _dice = &self.dice;
        self.table.len()
    }

    /// The i-th actor by rising id, from 0.
    pub(crate) fn actor_at(&self, i: usize) -> Option<&Actor>
        ensures { option_copied result ≡ slice_get self.now.world.actors i }
    {
        let _dice = &self.dice;
        self.table.nth_actor(i)
    }

    /// All of the world but its actors and its ore.
    pub(crate) fn head(&self) -> &Head
        ensures { world_with result.now self.now.world.actors self.now.world.ore ≡ self.now.world }
    {
        let _dice = &self.dice;
        &self.head
    }

    /// The ore of each cell.
    pub(crate) fn ore(&self) -> &Ore
        ensures { result.now ≡ self.now.world.ore }
    {
        let _dice = &self.dice;
        &self.ore
    }

    /// The rules that it stands on.
    pub(crate) fn rules(&self) -> &Rules
        ensures { result.now ≡ self.now.setup.rules }
    {
        let _dice = &self.dice;
        &self.rules
    }

    /// The map that it stands on.
    pub(crate) fn map(&self) -> &Map
        ensures { result.now ≡ self.now.setup.map }
    {
        let _dice = &self.dice;
        &self.map
    }

    /// The number of clients.
    pub(crate) fn clients(&self) -> u8
        ensures { result ≡ clients_of self.now.world }
    {
        self.head.cash.clients()
    }

    /// What holds of the world at all times: it stands on a valid setup, and is one in mid-turn.
    pub(crate) fn recall_invariant(&self)
        ensures stands { IsSetup self.now.setup }
        ensures acting { IsActing self.now.setup self.now.world }
    {
        let _tick = self.head.tick;
    }

    /// Each client whose entry is a Leave becomes gone.
    pub(crate) fn let_depart(&mut self, f: &Frame)
        requires { length f.now ≡ clients_of self.old.world }
        ensures { self.new ≡ (record self.old { world = with_departures self.old.world f.now }) }
    {
        apply_departures(&mut self.head.gone, f);
    }

    /// One turn more.
    pub(crate) fn count_turn(&mut self)
        requires { self.old.world.tick + 1 < 2 ^ 32 }
        ensures { self.new ≡ (record self.old {
          world = record self.old.world
              { tick = self.old.world.tick + 1 };
        }) }
    {
        self.head.tick += 1;
    }

    /// Removes the actors without health, and the blocks of the buildings among them.
    pub(crate) fn bury(&mut self)
        ensures { self.new ≡ (record self.old { world = buried self.old.world }) }
    {
        clear_dead(&self.table, &self.rules, &self.map, &mut self.blocks);
        self.router.look(&self.map, &self.blocks);
        self.table.bury();
    }
}
