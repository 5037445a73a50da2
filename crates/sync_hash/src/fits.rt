ghost use Rattle.std.specs.Prelude.{◌≤◌, length};
ghost use Rattle.std.specs.List.{All};
ghost use Rattle.game_model.specs.World.{HasClients};
ghost use Rattle.sync_hash.specs.FitsFields.{ActivityFits, ActorFits, BuildFits, FitsFields};
ghost use Rattle.sync_hash.specs.FitsFields.{LegFits};

use activities::Activity;
use game_model::{Actor, Build, Leg, MAX_ACTORS, World};

/// A law of worlds that code holds: they fit the fields of the hashed bytes, if they have one cash
/// and one departure flag for each of 1 to `MAX_CLIENTS` clients, and at most [`MAX_ACTORS`]
/// actors.
pub fn world_fits(w: &World)
    requires clients { HasClients w.now }
    requires actors { length w.now.actors ≤ MAX_ACTORS }
    ensures { FitsFields w.now }
{
    // each number is read so that the proof has the range of its type
    let _tick = w.tick;
    let _seed = w.seed;
    let _drawn = w.drawn;
    let _next_id = w.next_id;
    let _cells = w.ore.as_slice();
    actors_fit(w.actors.as_slice());
    for amount in w.cash.as_slice() {
        let _amount = *amount;
    }
}

fn actors_fit(actors: &[Actor])
    ensures { All ActorFits actors.now }
{
    for actor in actors {
        actor_fits(actor);
    }
}

fn actor_fits(a: &Actor)
    ensures { ActorFits a.now }
{
    let _id = a.id;
    let _kind = a.kind;
    let _facing = a.body.facing.units();
    let _health = a.body.health;
    let _load = a.body.load;
    let _reload = a.body.reload;
    leg_fits(a.body.leg);
    acts_fit(a.body.acts.as_slice());
    builds_fit(a.body.builds.as_slice());
}

fn leg_fits(leg: Option<Leg>)
    ensures { LegFits leg }
{
    if let Some(leg) = leg {
        let _progress = leg.progress;
    }
}

fn acts_fit(acts: &[Activity])
    ensures { All ActivityFits acts.now }
{
    for activity in acts {
        activity_fits(activity);
    }
}

fn activity_fits(activity: &Activity)
    ensures { ActivityFits activity.now }
{
    match activity {
        Activity::Move { .. } => {}
        Activity::Attack { target, .. } => {
            let _target = *target;
        }
        Activity::Harvest { timer, .. } | Activity::Deliver { timer, .. } => {
            let _timer = *timer;
        }
    }
}

fn builds_fit(builds: &[Build])
    ensures { All BuildFits builds.now }
{
    for build in builds {
        build_fits(build);
    }
}

fn build_fits(build: &Build)
    ensures { BuildFits build.now }
{
    let _kind = build.kind;
    let _left = build.left;
}
