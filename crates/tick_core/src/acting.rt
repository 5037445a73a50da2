ghost use Rattle.std.specs.Prelude.{◌≡◌, ◌-◌, ◌^◌, ◌<◌, true, false, if◌then◌else◌, slice_get};
ghost use Rattle.std.specs.Prelude.{IfSome, IsSome, IsSomeAnd, Some};
ghost use Rattle.std.specs.Option.{option_copied};
ghost use Rattle.activities.specs.declared.activity.Activity.TheVariants.{Attack, Move};
ghost use Rattle.game_model.specs.ActorChanges.{changed_at};
ghost use Rattle.game_model.specs.World.{actor_of, ids_of, living_of};
ghost use Rattle.game_tick.specs.Turn.{reloaded, with_build, with_reload, with_way};
ghost use Rattle.tick_core.specs.Scene.{DoesFirst, HasNoBuilds, IsGathering, IsLoaded, prepared};

use crate::burial::is_alive;
use crate::scene::Scene;
use activities::Activity;
use actor_table::ActorTable;
use combat::attack_step_on_current_ground;
use game_model::{Actor, Ground};
use harvest::harvest_step_on_current_ground;
use motion::{advance_leg, move_activity_on_current_ground};
use production::build_step;
use world_units::CPos;

/// One turn less until the actor of an id, if it is there, can fire again. It stands at this place
/// most likely.
fn reload(t: &mut ActorTable, i: usize, id: u32)
    ensures { t.new ≡ record t.old { actors = changed_at t.old.actors id reloaded } }
{
    let _ids_rise = t.len();
    let Some(a) = actor_near(t, i, id) else {
        return;
    };
    let reload = a.body.reload;
    if reload > 0 {
        t.set_reload(id, reload - 1);
    }
}

/// The actor at a place of the table, which has this id, if it lives. It is found at once, where an
/// id would be searched.
pub(crate) fn living_at(t: &ActorTable, i: usize, id: u32) -> Option<&Actor>
    requires { slice_get (ids_of t.now.actors) i ≡ Some id }
    ensures { option_copied result ≡ living_of t.now.actors id }
{
    let _ids_rise = t.len();
    let Some(a) = t.nth_actor(i) else {
        return None;
    };
    if is_alive(a) { Some(a) } else { None }
}

/// The actor of an id, found at once where it stands at this place of the table, and else searched.
pub(crate) fn actor_near(t: &ActorTable, i: usize, id: u32) -> Option<&Actor>
    ensures { option_copied result ≡ actor_of t.now.actors id }
{
    let _ids_rise = t.len();
    let Some(a) = t.nth_actor(i) else {
        return t.get(id);
    };
    if a.id == id { Some(a) } else { t.get(id) }
}

/// Which of the first two parts of its step may change an actor.
#[derive(Clone, Copy, Drop)]
struct Parts {
    /// It has turns left until it can fire again.
    reloads: bool,
    /// It has builds.
    builds: bool,
}

/// Which parts may change the actor at a place of the table, which has this id, if it lives.
fn parts_at(t: &ActorTable, i: usize, id: u32) -> Parts
    requires { slice_get (ids_of t.now.actors) i ≡ Some id }
    ensures lives { result.reloads ≡ true → IsSome (living_of t.now.actors id) }
    ensures reloads { result.reloads ≡ false → IfSome (living_of t.now.actors id) IsLoaded }
    ensures builds { result.builds ≡ false → IfSome (living_of t.now.actors id) HasNoBuilds }
{
    match living_at(t, i, id) {
        Some(a) => Parts {
            reloads: a.body.reload > 0,
            builds: !a.body.builds.is_empty(),
        },
        None => Parts {
            reloads: false,
            builds: false,
        },
    }
}

impl Scene {
    /// The first two parts of the step of the actor at a place, which has this id, if it lives: it
    /// reloads, and its first build goes on.
    pub(crate) fn prepare(&mut self, i: usize, id: u32)
        requires { slice_get (ids_of self.old.world.actors) i ≡ Some id }
        ensures { self.new ≡ record self.old { world = prepared self.old.setup self.old.world id } }
    {
        self.recall_invariant();
        let parts = self.parts_at(i, id);
        self.reload_if(i, id, parts.reloads);
        self.build_if(id, parts.builds);
    }

    /// Which parts may change the actor at a place, which has this id, if it lives.
    fn parts_at(&self, i: usize, id: u32) -> Parts
        requires { slice_get (ids_of self.now.world.actors) i ≡ Some id }
        ensures lives { result.reloads ≡ true → IsSome (living_of self.now.world.actors id) }
        ensures reloads { result.reloads ≡ false →
            IfSome (living_of self.now.world.actors id) IsLoaded }
        ensures builds { result.builds ≡ false →
            IfSome (living_of self.now.world.actors id) HasNoBuilds }
    {
        parts_at(&self.table, i, id)
    }

    /// One turn less until the actor can fire again, where it reloads.
    fn reload_if(&mut self, i: usize, id: u32, reloads: bool)
        requires lives { reloads ≡ true → IsSome (living_of self.old.world.actors id) }
        ensures { self.new ≡ record self.old {
          world = if reloads then with_reload self.old.world id else self.old.world;
        } }
    {
        if reloads {
            self.reload(i, id);
        }
    }

    /// The step of the first build of the actor, where it builds.
    fn build_if(&mut self, id: u32, builds: bool)
        ensures { self.new ≡ record self.old {
          world = if builds
              then with_build self.old.setup self.old.world (living_of self.old.world.actors id)
              else self.old.world;
        } }
    {
        if builds {
            self.build(id);
        }
    }

    /// One turn less until the actor can fire again.
    fn reload(&mut self, i: usize, id: u32)
        requires lives { IsSome (living_of self.old.world.actors id) }
        ensures { self.new ≡ record self.old { world = with_reload self.old.world id } }
    {
        reload(&mut self.table, i, id);
    }

    /// The step of the first build of the actor, if it lives.
    fn build(&mut self, id: u32)
        ensures { self.new ≡ record self.old {
          world = with_build self.old.setup self.old.world (living_of self.old.world.actors id);
        } }
    {
        let Some(_) = self.table.living(id) else {
            return;
        };
        let ground = Ground {
            rules: &self.rules,
            map: &self.map,
            blocks: &self.blocks,
        };
        build_step(&mut self.table, &ground, &mut self.head.next_id, id);
    }

    /// The last part of the step of the actor at a place, which has this id, if it lives: it goes on
    /// with its leg, or with what it is to do.
    pub(crate) fn go_on(&mut self, i: usize, id: u32)
        requires at { slice_get (ids_of self.old.world.actors) i ≡ Some id }
        requires drawn { self.old.world.drawn < 2 ^ 64 - 1 }
        ensures { self.new ≡ record self.old {
          world = with_way self.old.setup self.old.world (living_of self.old.world.actors id);
        } }
    {
        let Some(a) = living_at(&self.table, i, id) else {
            return;
        };
        if a.body.leg.is_some() {
            self.advance(id);
            return;
        }
        let Some(first) = a.body.acts.head() else {
            return;
        };
        match *first {
            Activity::Move { goal, waits } => self.walk(id, goal, waits),
            Activity::Attack { target, waits } => self.fight(id, target, waits),
            first @ (Activity::Harvest { .. } | Activity::Deliver { .. }) => self.gather(id, first),
        }
    }

    /// The actor goes on with its leg.
    fn advance(&mut self, id: u32)
        requires leg { IsSomeAnd (living_of self.old.world.actors id) (λ a. IsSome a.body.leg) }
        ensures { self.new ≡ record self.old {
          world = with_way self.old.setup self.old.world (living_of self.old.world.actors id);
        } }
    {
        advance_leg(&mut self.table, &self.rules, id);
    }

    /// The actor's first activity is a Move.
    fn walk(&mut self, id: u32, goal: CPos, waits: u8)
        requires first { IsSomeAnd (living_of self.old.world.actors id)
            (DoesFirst (Move goal waits)) }
        ensures { self.new ≡ record self.old {
          world = with_way self.old.setup self.old.world (living_of self.old.world.actors id);
        } }
    {
        let ground = Ground {
            rules: &self.rules,
            map: &self.map,
            blocks: &self.blocks,
        };
        move_activity_on_current_ground(
            &mut self.table,
            &mut self.router,
            &ground,
            id,
            goal,
            waits,
        );
    }

    /// The actor's first activity is an Attack.
    fn fight(&mut self, id: u32, target: u32, waits: u8)
        requires first { IsSomeAnd (living_of self.old.world.actors id)
            (DoesFirst (Attack target waits)) }
        requires drawn { self.old.world.drawn < 2 ^ 64 - 1 }
        ensures { self.new ≡ record self.old {
          world = with_way self.old.setup self.old.world (living_of self.old.world.actors id);
        } }
    {
        let _ = (target, waits);
        let ground = Ground {
            rules: &self.rules,
            map: &self.map,
            blocks: &self.blocks,
        };
        attack_step_on_current_ground(
            &mut self.table,
            &mut self.router,
            &ground,
            &mut self.dice,
            id,
        );
        self.head.drawn = self.dice.drawn();
    }

    /// The actor's first activity is a Harvest or a Deliver.
    fn gather(&mut self, id: u32, first: Activity)
        requires first { IsSomeAnd (living_of self.old.world.actors id) (DoesFirst first) }
        requires gathers { IsGathering first }
        ensures { self.new ≡ record self.old {
          world = with_way self.old.setup self.old.world (living_of self.old.world.actors id);
        } }
    {
        let _ = first;
        let ground = Ground {
            rules: &self.rules,
            map: &self.map,
            blocks: &self.blocks,
        };
        harvest_step_on_current_ground(
            &mut self.table,
            &mut self.router,
            &ground,
            &mut self.ore,
            &mut self.head.cash,
            id,
        );
    }
}
