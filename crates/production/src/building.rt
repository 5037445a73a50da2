ghost use Rattle.std.specs.Prelude.{◌≡◌, ◌<◌};
ghost use Rattle.std.specs.List.{All};
ghost use Rattle.game_model.specs.declared.actor.Actor.{Actor};
ghost use Rattle.game_model.specs.World.{actor_of};
ghost use Rattle.game_model.specs.Setup.{setup_in};
ghost use Rattle.production.specs.Grounds.{AreSized};
ghost use Rattle.production.specs.Steps.{built_by_id};

use crate::exit::exit_after;
use crate::give::{give_builds, new_actor};
use actor_table::ActorTable;
use game_model::{Build, Ground};
use world_units::dir_angle;

/// The step of the first build of the actor of an id. One turn less is left of it. Where none is
/// left, its unit comes out beside the builder, if there is room for it; otherwise the build waits.
///
/// Without such an actor, and without a build of it, nothing changes. All ids are below the next
/// one.
pub fn build_step(t: &mut ActorTable, g: &Ground, next_id: &mut u32, id: u32)
    requires sizes { AreSized t.old g.now }
    requires ids { All (λ (a : Actor). a.id < next_id.old) t.old.actors }
    ensures actors { t.new ≡ record t.old {
      actors = (built_by_id (setup_in g.now) t.old.actors
          next_id.old (actor_of t.old.actors id)).actors;
    } }
    ensures next_id { next_id.new ≡ (built_by_id (setup_in g.now) t.old.actors next_id.old
        (actor_of t.old.actors id)).next_id }
{
    let Some(a) = t.get(id) else {
        return;
    };
    if a.body.builds.is_empty() {
        return;
    }
    let (from, owner) = (a.cell, a.body.owner);
    let mut builds = a.body.builds.copy();
    let first = *builds.get(0);
    let build = Build {
        kind: first.kind,
        left: first.left.saturating_sub(1),
    };
    let Some(exit) = exit_after(t, g, *next_id, build, from) else {
        builds.set(0, build);
        give_builds(t, id, builds);
        return;
    };
    let _done = builds.remove(0);
    give_builds(t, id, builds);
    let facing = dir_angle(exit.dir);
    t.insert(new_actor(g.rules, *next_id, build.kind, owner, exit.cell, facing));
    *next_id += 1;
}
