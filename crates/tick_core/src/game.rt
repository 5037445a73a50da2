ghost use Rattle.std.specs.Prelude.{◌≡◌, ◌+◌, ◌≤◌, ◌<◌, length, slice_get, IfOk, IfSome};
ghost use Rattle.std.specs.Option.{option_copied};
ghost use Rattle.game_model.specs.Grid.{IsOn};
ghost use Rattle.game_model.specs.declared.limits.TheConstants.{MAX_ACTORS};
ghost use Rattle.game_model.specs.ValidMap.{IsSetup};
ghost use Rattle.game_model.specs.ValidWorld.{IsValidWorld};
ghost use Rattle.game_model.specs.World.{HasClients, world_with};
ghost use Rattle.sync_hash.specs.Kept.{IsKeptOf};
ghost use Rattle.sync_hash.specs.WorldHash.{hash_of_1};
ghost use Rattle.frame_core.specs.declared.sim.TheConstants.{MAX_STEPS};
ghost use Rattle.game_tick.specs.Keeps.{TickKeeps};
ghost use Rattle.tick_core.specs.Preview.{IsPreview};
ghost use Rattle.tick_core.specs.Game.{game_start, game_after, game_clients, game_steps};

use crate::hashing::Hashing;
use crate::live_world::LiveWorld;
use crate::opening::opening_world;
use base::NoMemory;
use frame_core::{Sim, Summary};
use game_model::{Actor, Head, Map, Ore, World};
use game_orders::{Frame, MAX_CLIENTS};
use grid_routes::Route;
use rule_traits::Rules;
use std::alloc::Global;
use std::marker::Model;
use std::rc::Rc;
use sync_hash::Hasher;
use world_units::CPos;

/// A world of a match with 1 to `MAX_CLIENTS` clients, the rules and the map that it stands on, and
/// the number of frames that it has been stepped by.
pub struct Game {
    live: LiveWorld,
    steps: u32,
}

// By hand, so that what drops one needs no proof of how its parts are dropped.
impl Drop for Game {
    fn drop(self) {
        let Self { live: _, steps: _ } = self;
    }
}

impl Model for Game {
    ghost use Rattle.tick_core.specs.Game.{GameState, IsGame};

    ghost Value = { GameState };

    ghost view = { λ game. record { setup = game.live.setup; world = game.live.world; steps = game.steps } };

    ghost invariant = { λ game. IsGame (record {
      setup = game.live.setup;
      world = game.live.world;
      steps =
          game.steps;
    }) };
}

impl Game {
    /// The opening game of a match of any seed and 1 to `MAX_CLIENTS` clients, over valid rules and
    /// a map that keeps what maps keep for these rules. All memory that its steps need is taken
    /// here; out of memory is the only error.
    pub fn create(
        alloc: Global,
        rules: Rc<Rules>,
        map: Rc<Map>,
        seed: u32,
        clients: u8,
    ) -> Result<Game, NoMemory>
        requires setup { IsSetup (record { rules = rules.value; map = map.value }) }
        requires least { 1 ≤ clients }
        requires most { clients ≤ MAX_CLIENTS }
        ensures { IfOk result (λ game. game ≡ game_start (record { rules = rules.value; map = map.value }) seed clients) }
    {
        Game::begin(alloc, rules, map, seed, clients, Hashing::Kept)
    }

    /// The same, with its hash had so.
    pub(crate) fn begin(
        alloc: Global,
        rules: Rc<Rules>,
        map: Rc<Map>,
        seed: u32,
        clients: u8,
        hashing: Hashing,
    ) -> Result<Game, NoMemory>
        requires setup { IsSetup (record { rules = rules.value; map = map.value }) }
        requires least { 1 ≤ clients }
        requires most { clients ≤ MAX_CLIENTS }
        ensures { IfOk result (λ game. game ≡ game_start (record { rules = rules.value; map = map.value }) seed clients) }
    {
        let world = opening_world(alloc, &rules, &map, seed, clients)?;
        Ok(Game {
            live: LiveWorld::of(alloc, rules, map, world, hashing)?,
            steps: 0,
        })
    }

    /// The game that goes on from a world that is valid after so many frames, over valid rules and
    /// a map that keeps what maps keep for these rules. It has made so many steps, and each later
    /// one, its hash and its summary are those of a game that came to this world by its frames. All
    /// memory that its steps need is taken here; out of memory is the only error.
    pub fn resume(
        alloc: Global,
        rules: Rc<Rules>,
        map: Rc<Map>,
        frames: u32,
        w: &World,
    ) -> Result<Game, NoMemory>
        requires setup { IsSetup (record { rules = rules.value; map = map.value }) }
        requires valid { IsValidWorld (record { rules = rules.value; map = map.value }) frames w.now }
        ensures { IfOk result (λ game. game ≡ (record {
          setup = record { rules = rules.value; map = map.value };
          world = w.now;
          steps = frames;
        })) }
    {
        let world = w.copy(alloc)?;
        Ok(Game {
            live: LiveWorld::of(alloc, rules, map, world, Hashing::Kept)?,
            steps: frames,
        })
    }

    /// The world as it is now, which is valid after as many frames as the game has made steps. Out
    /// of memory is its only error.
    pub fn snapshot(&self, alloc: Global) -> Result<World, NoMemory>
        ensures world { IfOk result (λ world. world ≡ self.now.world) }
        ensures valid { IsValidWorld self.now.setup self.now.steps self.now.world }
        ensures clients { HasClients self.now.world }
    {
        let _steps = self.steps;
        self.live.snapshot(alloc)
    }

    /// The number of steps so far: of the frames, where the game begins with the match.
    pub fn step_count(&self) -> u32
        ensures { result ≡ self.now.steps }
    {
        let _live = &self.live;
        self.steps
    }

    /// The number of actors, at most `MAX_ACTORS`.
    pub fn actor_count(&self) -> usize
        ensures count { result ≡ length self.now.world.actors }
        ensures most { result ≤ MAX_ACTORS }
    {
        let _steps = self.steps;
        self.live.actor_count()
    }

    /// The i-th actor by rising id, from 0. `None` exactly where there are not so many.
    pub fn actor_at(&self, i: usize) -> Option<&Actor>
        ensures { option_copied result ≡ slice_get self.now.world.actors i }
    {
        let _steps = self.steps;
        self.live.actor_at(i)
    }

    /// All of the world but its actors and its ore. The world is valid after as many frames as the
    /// game has made steps.
    pub fn head(&self) -> &Head
        ensures value { world_with result.now self.now.world.actors self.now.world.ore ≡
            self.now.world }
        ensures valid { IsValidWorld self.now.setup self.now.steps self.now.world }
        ensures clients { HasClients self.now.world }
    {
        let _steps = self.steps;
        self.live.head()
    }

    /// The ore of each cell.
    pub fn ore(&self) -> &Ore
        ensures { result.now ≡ self.now.world.ore }
    {
        let _steps = self.steps;
        self.live.ore()
    }

    /// The rules that it stands on.
    pub fn rules(&self) -> &Rules
        ensures { result.now ≡ self.now.setup.rules }
    {
        let _steps = self.steps;
        self.live.rules()
    }

    /// The same rules, as it shares them.
    pub fn shared_rules(&self) -> &Rc<Rules>
        ensures { result.now.value ≡ self.now.setup.rules }
    {
        let _steps = self.steps;
        self.live.shared_rules()
    }

    /// The map that it stands on.
    pub fn map(&self) -> &Map
        ensures { result.now ≡ self.now.setup.map }
    {
        let _steps = self.steps;
        self.live.map()
    }

    /// The walk of least cost that an actor of a kind would begin now: over the terrain and the
    /// buildings as they stand, but not around other units. Both cells are on the map. `None` comes
    /// exactly where there is no walk, as of a kind that doesn't move, or where the cells are the
    /// same. The game stays as it is. Out of memory is its only error.
    pub fn route(
        &mut self,
        alloc: Global,
        kind: u16,
        from: CPos,
        goal: CPos,
    ) -> Result<Option<Route>, NoMemory>
        requires from { IsOn self.old.setup.map.width self.old.setup.map.height from }
        requires goal { IsOn self.old.setup.map.width self.old.setup.map.height goal }
        ensures route { IfOk result (IsPreview self.old.setup self.old.world kind from goal) }
        ensures same { self.new ≡ self.old }
    {
        let _steps = self.steps;
        self.live.route(alloc, kind, from, goal)
    }

    /// What is kept of the world for its hash, if anything is. It tells how many actors and cells
    /// were hashed.
    pub fn kept(&self) -> Option<&Hasher>
        ensures { IfSome result (λ kept. IsKeptOf kept.now self.now.world.actors self.now.world.ore) }
    {
        let _steps = self.steps;
        self.live.kept()
    }

    /// The world's hash in the first version, without the pace: that of the marks in replays of
    /// version 1.
    pub fn hash_1(&self) -> u64
        ensures { result ≡ hash_of_1 self.now.world }
    {
        let _steps = self.steps;
        self.live.hash_1()
    }
}

impl Sim for Game {
    ghost use Rattle.tick_core.specs.Game.{game_after, game_clients, game_hash, game_steps};
    ghost use Rattle.tick_core.specs.Game.{game_summary};

    ghost clients_of = { game_clients };

    ghost steps = { game_steps };

    ghost after = { game_after };

    ghost hash_of = { game_hash };

    ghost summary_of = { game_summary };

    fn clients(&self) -> u8 {
        self.live.scene.head.cash.clients()
    }

    /// Ticks the world by a frame with one entry for each client, after fewer than `MAX_STEPS`
    /// steps so far.
    fn step(&mut self, f: &Frame)
        requires whole { length f.now ≡ game_clients self.old }
        requires more { game_steps self.old < MAX_STEPS }
        ensures world { self.new ≡ game_after self.old f.now }
        ensures clients { game_clients self.new ≡ game_clients self.old }
        ensures counted { game_steps self.new ≡ game_steps self.old + 1 }
        ensures keeps { TickKeeps self.old.world f.now self.new.world }
    {
        self.live.tick(f);
        self.steps += 1;
    }

    fn hash(&self) -> u64 {
        self.live.hash()
    }

    fn summary(&self) -> Summary {
        Summary {
            actors: self.live.scene.table.len() as u32,
            cash: self.live.scene.head.cash.copy(),
        }
    }
}
