ghost use Rattle.std.specs.Prelude.{◌≡◌, ◌≤◌, length, IfOk, IfSome};
ghost use Rattle.game_model.specs.declared.limits.TheConstants.{MAX_ACTORS};
ghost use Rattle.game_model.specs.Grid.{HasSize};
ghost use Rattle.sync_hash.specs.Kept.{kept_of};

use crate::hashing::Hashing;
use crate::scene::Scene;
use base::NoMemory;
use game_model::{Actor, Head, Map, Ore, World};
use grid_routes::Route;
use rule_traits::Rules;
use std::alloc::Global;
use std::marker::Model;
use std::rc::Rc;
use sync_hash::Hasher;
use world_units::CPos;

/// A world that is being ticked, and what it stands on. The hasher, where there is one, is told of
/// each actor and each cell that changes.
#[derive(Drop)]
pub(crate) struct LiveWorld {
    pub(crate) scene: Scene,
    pub(crate) hasher: Option<Hasher>,
    /// Whether somebody may have died since the last burial. Where it is false all have health.
    pub(crate) deaths: bool,
}

impl Model for LiveWorld {
    ghost use Rattle.std.specs.Prelude.{◌≡◌, false};
    ghost use Rattle.tick_core.specs.Live.{AllLive, Standing};
    ghost use Rattle.tick_core.specs.Telling.{IsKeptIf};

    ghost Value = { Standing };

    ghost view = { λ live. live.scene };

    ghost invariant = { λ live. IsKeptIf live.hasher live.scene.world.actors live.scene.world.ore ×
        (live.deaths ≡ false → AllLive live.scene.world.actors) };
}

impl LiveWorld {
    ghost use Rattle.std.specs.Prelude.{◌≡◌, length, slice_get, IfOk, IfSome};
    ghost use Rattle.std.specs.Option.{option_copied};
    ghost use Rattle.game_model.specs.Grid.{IsOn};
    ghost use Rattle.game_model.specs.ValidMap.{IsSetup};
    ghost use Rattle.game_model.specs.World.{world_with};
    ghost use Rattle.tick_core.specs.Ordered.{IsReady};
    ghost use Rattle.tick_core.specs.Preview.{IsPreview};
    ghost use Rattle.sync_hash.specs.Kept.{IsKeptOf};
    ghost use Rattle.sync_hash.specs.WorldHash.{hash_of, hash_of_1};

    /// A valid world, with the memory for all that ticks need, and with a hasher or without one. Out
    /// of memory is the only error.
    pub(crate) fn of(
        alloc: Global,
        rules: Rc<Rules>,
        map: Rc<Map>,
        world: World,
        hashing: Hashing,
    ) -> Result<LiveWorld, NoMemory>
        requires setup { IsSetup (record { rules = rules.value; map = map.value }) }
        requires valid { IsReady (record { rules = rules.value; map = map.value }) world world }
        ensures { IfOk result (λ live. live ≡ (record { setup = record { rules = rules.value; map = map.value }; world = world })) }
    {
        let hasher = hasher_of(alloc, &map, &world, hashing)?;
        let scene = Scene::of(alloc, rules, map, world)?;
        Ok(LiveWorld {
            scene,
            hasher,
            deaths: false,
        })
    }

    /// The world as it is now. Out of memory is the only error.
    pub(crate) fn snapshot(&self, alloc: Global) -> Result<World, NoMemory>
        ensures { IfOk result (λ world. world ≡ self.now.world) }
    {
        let _hasher = &self.hasher;
        self.scene.snapshot(alloc)
    }

    /// The number of actors.
    pub(crate) fn actor_count(&self) -> usize
        ensures { result ≡ length self.now.world.actors }
    {
        let _hasher = &self.hasher;
        self.scene.actor_count()
    }

    /// The i-th actor by rising id, from 0.
    pub(crate) fn actor_at(&self, i: usize) -> Option<&Actor>
        ensures { option_copied result ≡ slice_get self.now.world.actors i }
    {
        let _hasher = &self.hasher;
        self.scene.actor_at(i)
    }

    /// All of the world but its actors and its ore.
    pub(crate) fn head(&self) -> &Head
        ensures { world_with result.now self.now.world.actors self.now.world.ore ≡ self.now.world }
    {
        let _hasher = &self.hasher;
        self.scene.head()
    }

    /// The ore of each cell.
    pub(crate) fn ore(&self) -> &Ore
        ensures { result.now ≡ self.now.world.ore }
    {
        let _hasher = &self.hasher;
        self.scene.ore()
    }

    /// The rules that it stands on.
    pub(crate) fn rules(&self) -> &Rules
        ensures { result.now ≡ self.now.setup.rules }
    {
        let _hasher = &self.hasher;
        self.scene.rules()
    }

    /// The same rules, as it shares them.
    pub(crate) fn shared_rules(&self) -> &Rc<Rules>
        ensures { result.now.value ≡ self.now.setup.rules }
    {
        let _hasher = &self.hasher;
        &self.scene.rules
    }

    /// The map that it stands on.
    pub(crate) fn map(&self) -> &Map
        ensures { result.now ≡ self.now.setup.map }
    {
        let _hasher = &self.hasher;
        self.scene.map()
    }

    /// The walk of an actor of a kind, over the buildings as they stand now.
    pub(crate) fn route(
        &mut self,
        alloc: Global,
        kind: u16,
        from: CPos,
        goal: CPos,
    ) -> Result<Option<Route>, NoMemory>
        requires from { IsOn self.old.setup.map.width self.old.setup.map.height from }
        requires goal { IsOn self.old.setup.map.width self.old.setup.map.height goal }
        ensures route { IfOk result (IsPreview self.old.setup self.old.world kind from goal) }
        ensures same { self.new ≡ self.old }
    {
        self.scene.route(alloc, kind, from, goal)
    }

    /// What is kept of the world for its hash, if anything is.
    pub(crate) fn kept(&self) -> Option<&Hasher>
        ensures { IfSome result (λ kept. IsKeptOf kept.now self.now.world.actors self.now.world.ore) }
    {
        self.hasher.as_ref()
    }

    /// The hash of the world. It costs the head alone where there is a hasher, else all.
    pub(crate) fn hash(&self) -> u64
        ensures { result ≡ hash_of self.now.world }
    {
        match &self.hasher {
            Some(hasher) => self.scene.hash(hasher),
            None => self.scene.whole_hash(),
        }
    }

    /// The hash of the first version, without the pace. It costs as much.
    pub(crate) fn hash_1(&self) -> u64
        ensures { result ≡ hash_of_1 self.now.world }
    {
        match &self.hasher {
            Some(hasher) => self.scene.hash_1(hasher),
            None => self.scene.whole_hash_1(),
        }
    }
}

/// A hasher with the numbers of a world on a map, or none. Out of memory is the only error.
fn hasher_of(
    alloc: Global,
    map: &Map,
    world: &World,
    hashing: Hashing,
) -> Result<Option<Hasher>, NoMemory>
    requires actors { length world.now.actors ≤ MAX_ACTORS }
    requires size { HasSize map.now.width map.now.height world.now.ore }
    ensures { IfOk result (λ hasher. IfSome hasher (λ kept. kept
        ≡ kept_of map.now.width map.now.height world.now)) }
{
    match hashing {
        Hashing::Kept => Ok(Some(Hasher::create(alloc, map.width, map.height, world)?)),
        Hashing::Asked => Ok(None),
    }
}
