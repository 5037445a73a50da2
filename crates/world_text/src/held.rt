//! The numbers of worlds that code holds.
ghost use Rattle.std.specs.List.{All};
ghost use Rattle.world_text.specs.Numbers.{IsActivityHeld, IsActorHeld, IsBuildHeld, IsHeld};
ghost use Rattle.world_text.specs.Numbers.{IsLegHeld, IsWorldHeld};

use activities::Activity;
use game_model::{Actor, Build, Leg, World};

/// A law of worlds that code holds: each of their numbers is below 2^64, and their ore has a number
/// for each cell. The call does nothing.
pub fn numbers_are_held(w: &World)
    ensures { IsWorldHeld w.now }
{
    // each number is read so that the proof has the range of its type
    let (_tick, _seed, _drawn) = (w.tick, w.seed, w.drawn);
    let (_next_id, _pace) = (w.next_id, w.pace);
    numbers_held(w.cash.as_slice());
    actors_held(w.actors.as_slice());
    ore_held(w.ore.as_slice());
}

fn numbers_held(numbers: &[u32])
    ensures { All IsHeld numbers.now }
{
    for number in numbers {
        let _number = *number;
    }
}

fn ore_held(cells: &[u8])
    ensures { All IsHeld cells.now }
{
    for bales in cells {
        let _bales = *bales;
    }
}

fn actors_held(actors: &[Actor])
    ensures { All IsActorHeld actors.now }
{
    for actor in actors {
        actor_held(actor);
    }
}

fn actor_held(a: &Actor)
    ensures { IsActorHeld a.now }
{
    let (_id, _kind, _owner) = (a.id, a.kind, a.body.owner);
    let (_x, _y) = (a.cell.x, a.cell.y);
    let _facing = a.body.facing.units();
    let (_health, _load, _reload) = (a.body.health, a.body.load, a.body.reload);
    leg_held(a.body.leg);
    acts_held(a.body.acts.as_slice());
    builds_held(a.body.builds.as_slice());
}

fn leg_held(leg: Option<Leg>)
    ensures { IsLegHeld leg }
{
    if let Some(leg) = leg {
        let (_dir, _progress) = (leg.dir, leg.progress);
    }
}

fn acts_held(acts: &[Activity])
    ensures { All IsActivityHeld acts.now }
{
    for act in acts {
        activity_held(act);
    }
}

fn activity_held(act: &Activity)
    ensures { IsActivityHeld act.now }
{
    match act {
        Activity::Move { goal, waits } => {
            let (_x, _y, _waits) = (goal.x, goal.y, *waits);
        }
        Activity::Attack { target, waits } => {
            let (_target, _waits) = (*target, *waits);
        }
        Activity::Harvest { cell, timer, waits } => {
            let (_x, _y, _timer, _waits) = (cell.x, cell.y, *timer, *waits);
        }
        Activity::Deliver { home, timer, waits } => {
            let (_x, _y, _timer, _waits) = (home.x, home.y, *timer, *waits);
        }
    }
}

fn builds_held(builds: &[Build])
    ensures { All IsBuildHeld builds.now }
{
    for build in builds {
        build_held(build);
    }
}

fn build_held(build: &Build)
    ensures { IsBuildHeld build.now }
{
    let (_kind, _left) = (build.kind, build.left);
}
