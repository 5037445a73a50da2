ghost use Rattle.std.specs.Prelude.{◌≡◌, ℕ, ◌==◌, ◌+◌, ◌-◌, ◌≤◌, ◌<◌, ◌^◌, ◌&&◌, ◌||◌, [], true};
ghost use Rattle.std.specs.Prelude.{false, not, if◌then◌else◌, is_some, length, map, slice_get};
ghost use Rattle.std.specs.Prelude.{IfSome, None, Some};
ghost use Rattle.actor_table.specs.Idle.{IsIdle};
ghost use Rattle.game_model.specs.declared.actor.Actor.{Actor};
ghost use Rattle.game_model.specs.Grid.{IsOn};
ghost use Rattle.game_model.specs.ValidMap.{IsSetup};
ghost use Rattle.game_model.specs.World.{ids_of, living_of};
ghost use Rattle.game_model.specs.declared.limits.TheConstants.{MAX_ACTORS};
ghost use Rattle.game_tick.specs.Turn.{after_step, after_steps, after_turn};
ghost use Rattle.sync_hash.specs.Kept.{numbered};
ghost use Rattle.tick_core.specs.Live.{AreLive, LivesOf};
ghost use Rattle.tick_core.specs.Scene.{IsActing};
ghost use Rattle.tick_core.specs.Telling.{HasPlaceFor, IsKeptButIf, IsSizedIf, IsToldIf, cell_of};
ghost use Rattle.tick_core.specs.Telling.{target_of, told_of, told_ore, told_ore_if, with_some};
ghost use Rattle.tick_core.specs.Touched.{KeptBut};
ghost use Rattle.tick_core.specs.Waiting.{IsFirstBuilt, IsWaiting};

use crate::acting::{actor_near, living_at};
use crate::burial::is_alive;
use crate::live_world::LiveWorld;
use crate::scene::Scene;
use activities::Activity;
use actor_table::ActorTable;
use game_model::{Body, Build, Ore};
use sync_hash::Hasher;
use world_units::CPos;

/// What a step of an actor may change beside the actor itself.
#[derive(Clone, Copy, Drop)]
pub(crate) struct StepEffects {
    /// The actor that it may hit.
    pub(crate) target: Option<u32>,
    /// The cell whose ore it may load.
    pub(crate) cell: Option<CPos>,
}

/// Whether it is known that a step leaves the actor at a place of the table as it is.
fn is_idle_at(table: &ActorTable, i: usize) -> bool
    ensures { (id : ℕ) → result ≡ true → slice_get (ids_of table.now.actors) i ≡ Some id →
        IfSome (living_of table.now.actors id) IsIdle }
{
    let _ids_rise = table.len();
    table.is_idle_at(i)
}

/// Whether the actor at a place of the table, which has this id, lives.
fn lives_at(table: &ActorTable, i: usize, id: u32) -> bool
    requires { slice_get (ids_of table.now.actors) i ≡ Some id }
    ensures { result ≡ false → IfSome (living_of table.now.actors id) IsIdle }
{
    living_at(table, i, id).is_some()
}

/// What the first activity of the actor at a place of the table, which has this id, if it lives, may
/// change beside the actor itself.
fn effects_at(table: &ActorTable, i: usize, id: u32) -> StepEffects
    requires { slice_get (ids_of table.now.actors) i ≡ Some id }
    ensures target { result.target ≡ target_of (living_of table.now.actors id) }
    ensures cell { result.cell ≡ cell_of (living_of table.now.actors id) }
{
    let none = StepEffects {
        target: None,
        cell: None,
    };
    let Some(a) = living_at(table, i, id) else {
        return none;
    };
    match a.body.acts.head() {
        Some(Activity::Attack { target, .. }) => StepEffects {
            target: Some(*target),
            cell: None,
        },
        Some(Activity::Harvest { cell, .. }) => StepEffects {
            target: None,
            cell: Some(*cell),
        },
        Some(Activity::Move { .. } | Activity::Deliver { .. }) | None => none,
    }
}

/// Whether the actor at a place of the table, which has this id, if it lives, waits for a unit that
/// it has built, and has nothing else to do.
fn is_waiting_at(table: &ActorTable, i: usize, id: u32) -> bool
    requires { slice_get (ids_of table.now.actors) i ≡ Some id }
    ensures { result ≡ true → IfSome (living_of table.now.actors id) IsWaiting }
{
    match living_at(table, i, id) {
        Some(a) => waits(&a.body),
        None => false,
    }
}

/// Whether an actor with this body has nothing to load, to do or to go, and no turn is left of its
/// first build.
fn waits(body: &Body) -> bool
    ensures { (a : Actor) → a.body ≡ body.now → result ≡ true → IsWaiting a }
{
    body.reload == 0
        && body.leg.is_none()
        && body.acts.as_slice().is_empty()
        && is_done(body.builds.as_slice())
}

/// Whether no turn is left of the first of these builds, if there is one.
fn is_done(builds: &[Build]) -> bool
    ensures { result ≡ true → IsFirstBuilt builds.now }
{
    match builds.first() {
        Some(build) => build.left == 0,
        None => true,
    }
}

/// One of the two, or both.
fn or(one: bool, other: bool) -> bool
    ensures { result ≡ (one || other) }
{
    one | other
}

/// Tells the hasher of the actor of an id, if it is there, most likely at this place. Returns
/// whether it has no health.
fn update_actor_number(table: &ActorTable, hasher: &mut Hasher, i: usize, id: Option<u32>) -> bool
    requires { HasPlaceFor hasher.old.actors table.now.actors id }
    ensures told { hasher.new ≡ told_of hasher.old table.now.actors id }
    ensures living { result ≡ false → LivesOf table.now.actors id }
{
    let Some(id) = id else {
        return false;
    };
    let Some(a) = actor_near(table, i, id) else {
        return false;
    };
    hasher.actor_set(a);
    !is_alive(a)
}

/// Tells the hasher of the actors of these ids, as far as they are there, the first most likely at
/// this place: the numbers of all others are right. Returns whether one of these has no health.
fn update_actor_numbers(
    table: &ActorTable,
    hasher: &mut Hasher,
    i: usize,
    id: Option<u32>,
    target: Option<u32>,
    added: Option<u32>,
) -> bool
    requires { KeptBut (with_some id (with_some target (with_some added []))) hasher.old.actors
        table.now.actors }
    ensures numbers { hasher.new.actors ≡ map numbered table.now.actors }
    ensures cells { hasher.new.cells ≡ hasher.old.cells }
    ensures width { hasher.new.width ≡ hasher.old.width }
    ensures height { hasher.new.height ≡ hasher.old.height }
    ensures living { result ≡ false → AreLive (with_some id (with_some target (with_some added [])))
        table.now.actors }
{
    let _ids_rise = table.len();
    let own = update_actor_number(table, hasher, i, id);
    let hit = update_actor_number(table, hasher, i, target);
    let new = update_actor_number(table, hasher, i, added);
    or(own, or(hit, new))
}

/// Whether the actor of an id, if it is there, most likely at this place, has no health.
fn is_dead(table: &ActorTable, i: usize, id: Option<u32>) -> bool
    ensures { result ≡ false → LivesOf table.now.actors id }
{
    let Some(id) = id else {
        return false;
    };
    match actor_near(table, i, id) {
        Some(a) => !is_alive(a),
        None => false,
    }
}

/// Whether one of the actors of these ids, as far as they are there, the first most likely at this
/// place, has no health.
fn is_one_dead(
    table: &ActorTable,
    i: usize,
    id: Option<u32>,
    target: Option<u32>,
    added: Option<u32>,
) -> bool
    ensures { result ≡ false → AreLive (with_some id (with_some target (with_some added [])))
        table.now.actors }
{
    let own = is_dead(table, i, id);
    let hit = is_dead(table, i, target);
    let new = is_dead(table, i, added);
    or(own, or(hit, new))
}

/// The id, where these differ.
fn if_changed(before: u64, after: u64, id: Option<u32>) -> Option<u32>
    ensures { result ≡ (if before == after then None else id) }
{
    if before == after { None } else { id }
}

/// The id of the actor that made a step, where it may have changed: not where it waited and no unit
/// came out.
fn if_stepped(waited: bool, added: Option<u32>, id: u32) -> Option<u32>
    ensures { result ≡ (if waited && not (is_some added) then None else Some id) }
{
    if waited && added.is_none() {
        None
    } else {
        Some(id)
    }
}

/// Tells the hasher of the ore of a cell of the map.
fn update_cell_number(ore: &Ore, hasher: &mut Hasher, cell: Option<CPos>)
    requires on_map { IfSome cell (IsOn ore.now.width ore.now.height) }
    requires width { hasher.old.width ≡ ore.now.width }
    requires height { hasher.old.height ≡ ore.now.height }
    ensures { hasher.new ≡ told_ore hasher.old ore.now cell }
{
    if let Some(cell) = cell {
        hasher.ore_set(cell, ore.get(cell));
    }
}

impl Scene {
    /// The number of actors.
    fn actors(&self) -> usize
        ensures value { result ≡ length self.now.world.actors }
        ensures limit { result ≤ MAX_ACTORS }
    {
        self.table.len()
    }

    /// The id at a place.
    fn nth(&self, i: usize) -> Option<u32>
        ensures { result ≡ slice_get (ids_of self.now.world.actors) i }
    {
        self.table.nth(i)
    }

    /// What the last part of the step of the actor at a place, which has this id, may change beside
    /// the actor itself.
    fn effects_at(&self, i: usize, id: u32) -> StepEffects
        requires { slice_get (ids_of self.now.world.actors) i ≡ Some id }
        ensures target { result.target ≡ target_of (living_of self.now.world.actors id) }
        ensures cell { result.cell ≡ cell_of (living_of self.now.world.actors id) }
    {
        effects_at(&self.table, i, id)
    }

    /// Whether it is known that a step leaves the actor at a place as it is. It takes no look at
    /// the actor.
    fn is_idle_at(&self, i: usize) -> bool
        ensures { (id : ℕ) → result ≡ true → slice_get (ids_of self.now.world.actors) i ≡ Some id →
            IfSome (living_of self.now.world.actors id) IsIdle }
    {
        is_idle_at(&self.table, i)
    }

    /// Whether the actor at a place, which has this id, lives.
    fn lives_at(&self, i: usize, id: u32) -> bool
        requires { slice_get (ids_of self.now.world.actors) i ≡ Some id }
        ensures { result ≡ false → IfSome (living_of self.now.world.actors id) IsIdle }
    {
        lives_at(&self.table, i, id)
    }

    /// Whether the actor at a place, which has this id, if it lives, waits for a unit that it has
    /// built, and has nothing else to do.
    fn is_waiting_at(&self, i: usize, id: u32) -> bool
        requires { slice_get (ids_of self.now.world.actors) i ≡ Some id }
        ensures { result ≡ true → IfSome (living_of self.now.world.actors id) IsWaiting }
    {
        is_waiting_at(&self.table, i, id)
    }

    /// Tells the hasher, if there is one, of the actors of these ids, as far as they are there, the
    /// first most likely at this place: the numbers of all others are right. Returns whether one of
    /// these has no health.
    pub(crate) fn update_hasher(
        &self,
        hasher: &mut Option<Hasher>,
        i: usize,
        id: Option<u32>,
        target: Option<u32>,
        added: Option<u32>,
    ) -> bool
        requires { IsKeptButIf (with_some id (with_some target (with_some added []))) hasher.old
            self.now.world.actors }
        ensures told { IsToldIf hasher.old hasher.new self.now.world.actors }
        ensures living { result ≡ false → AreLive (with_some id
            (with_some target (with_some added []))) self.now.world.actors }
    {
        match hasher {
            Some(hasher) => update_actor_numbers(&self.table, hasher, i, id, target, added),
            None => is_one_dead(&self.table, i, id, target, added),
        }
    }

    /// Tells the hasher, if there is one, of the ore of a cell of the map.
    fn update_hasher_cell(&self, hasher: &mut Option<Hasher>, cell: Option<CPos>)
        requires on_map { IfSome cell (IsOn self.now.world.ore.width self.now.world.ore.height) }
        requires size { IsSizedIf hasher.old self.now.world.ore }
        ensures { hasher.new ≡ told_ore_if hasher.old self.now.world.ore cell }
    {
        if let Some(hasher) = hasher {
            update_cell_number(&self.ore, hasher, cell);
        }
    }
}

impl LiveWorld {
    /// Runs a turn: each actor that is there at its start makes its step, by rising id; then the
    /// burial, and the turn is counted.
    pub(crate) fn run_turn(&mut self)
        requires tick { self.old.world.tick + 1 < 2 ^ 32 }
        requires draws { self.old.world.drawn + 2 ^ 12 < 2 ^ 64 }
        ensures world { self.new ≡ (record self.old {
          world = after_turn self.old.setup
              self.old.world;
        }) }
        ensures drawn { self.new.world.drawn ≤ self.old.world.drawn + MAX_ACTORS }
    {
        self.step_all();
        self.bury();
        self.count_turn();
    }

    /// Each actor that is there makes its step, by rising id.
    fn step_all(&mut self)
        requires { self.old.world.drawn + 2 ^ 12 < 2 ^ 64 }
        ensures world { self.new ≡ (record self.old {
          world = after_steps self.old.setup
              self.old.world (ids_of self.old.world.actors);
        }) }
        ensures few { length self.old.world.actors ≤ MAX_ACTORS }
    {
        for i in 0..self.scene.actors() {
            self.step_at(i);
        }
    }

    /// One turn more.
    fn count_turn(&mut self)
        requires { self.old.world.tick + 1 < 2 ^ 32 }
        ensures { self.new ≡ (record self.old {
          world = record self.old.world
              { tick = self.old.world.tick + 1 };
        }) }
    {
        self.scene.count_turn();
    }

    /// The step of the actor at a place, of which the hasher is told. One that is known to be idle
    /// costs the look at its mark.
    fn step_at(&mut self, i: usize)
        requires draws { self.old.world.drawn < 2 ^ 64 - 1 }
        ensures world { (id : ℕ) → slice_get (ids_of self.old.world.actors) i ≡ Some id →
            self.new ≡ (record self.old { world = after_step self.old.setup self.old.world id }) }
        ensures stands { IsSetup self.old.setup }
        ensures acting { IsActing self.old.setup self.old.world }
    {
        self.scene.recall_invariant();
        if self.scene.is_idle_at(i) {
            return;
        }
        let Some(id) = self.scene.nth(i) else {
            return;
        };
        if self.scene.lives_at(i, id) {
            self.step_busy(i, id);
        }
    }

    /// The step of the actor at a place, which has this id, by its parts, and the telling: of the
    /// actor itself where it may have changed, of who was hit, and of who came out. It is noted
    /// where one of them has died.
    fn step_busy(&mut self, i: usize, id: u32)
        requires at { slice_get (ids_of self.old.world.actors) i ≡ Some id }
        requires drawn { self.old.world.drawn < 2 ^ 64 - 1 }
        ensures { self.new ≡ (record self.old {
          world = after_step self.old.setup self.old.world id;
        }) }
    {
        self.scene.recall_invariant();
        let next_id = self.scene.next_id();
        let drawn = self.scene.drawn();
        let waited = self.scene.is_waiting_at(i, id);
        self.scene.prepare(i, id);
        self.scene.recall_invariant();
        let effects = self.scene.effects_at(i, id);
        self.scene.go_on(i, id);
        let target = if_changed(drawn, self.scene.drawn(), effects.target);
        let new_id = self.scene.next_id();
        let added = if_changed(u64::from(next_id), u64::from(new_id), Some(next_id));
        self.scene.recall_invariant();
        let stepped = if_stepped(waited, added, id);
        let died = self
            .scene
            .update_hasher(&mut self.hasher, i, stepped, target, added);
        self.deaths = or(self.deaths, died);
        self.scene
            .update_hasher_cell(&mut self.hasher, effects.cell);
    }
}
