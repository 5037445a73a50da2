ghost use Rattle.std.specs.Prelude.{◌≡◌, IfSome, Some};
ghost use Rattle.game_model.specs.declared.actor.Actor.{Actor};
ghost use Rattle.game_model.specs.Grid.{HasSize};
ghost use Rattle.game_model.specs.World.{actor_of};
ghost use Rattle.game_model.specs.Setup.{setup_in};
ghost use Rattle.grid_routes.specs.Routing.{IsSameSight, IsSameSize};
ghost use Rattle.motion.specs.Ground.{FitsMap, SeesMap, built_in};
ghost use Rattle.harvest.specs.Steps.{HasWay, IsHarvested, LeadsOnMap, after_first};
ghost use Rattle.harvest.specs.Steps.{harvested_by_id};

use crate::deliver::deliver;
use crate::harvest::harvest;
use activities::Activity;
use actor_table::ActorTable;
use game_model::{Ground, Ore, Purse};
use grid_routes::Router;

/// The step of an activity of the actor of an id, where that is a Harvest or a Deliver.
fn harvest_by(
    t: &mut ActorTable,
    r: &mut Router,
    g: &Ground,
    ore: &mut Ore,
    purse: &mut Purse,
    id: u32,
    first: Activity,
)
    requires fits { SeesMap g.now.map.now (built_in g.now) t.old r.old }
    requires ore { HasSize g.now.map.now.width g.now.map.now.height ore.old }
    requires way { LeadsOnMap g.now.map.now first }
    ensures harvested { (a : Actor) → actor_of t.old.actors id ≡ Some a →
        IsHarvested t.old t.new ore.new purse.new (after_first (setup_in g.now) (built_in g.now)
        (record { actors = t.old.actors; ore = ore.old; cash = purse.old }) a (Some first)) }
    ensures size { HasSize g.now.map.now.width g.now.map.now.height ore.new }
    ensures router { IsSameSight r.old r.new }
{
    match first {
        Activity::Harvest { cell, timer, waits } => {
            harvest(t, r, g, ore, id, cell, timer, waits);
        }
        Activity::Deliver { home, timer, waits } => {
            deliver(t, r, g, purse, id, home, timer, waits);
        }
        Activity::Move { .. } | Activity::Attack { .. } => {}
    }
}

/// The step of the actor of an id whose first activity is a Harvest of a cell of the map, or a
/// Deliver. Nothing changes where there is no such actor, or where its first activity is another.
pub fn harvest_step(
    t: &mut ActorTable,
    r: &mut Router,
    g: &Ground,
    ore: &mut Ore,
    purse: &mut Purse,
    id: u32,
)
    requires fits { FitsMap g.now.map.now (built_in g.now) t.old r.old }
    requires ore { HasSize g.now.map.now.width g.now.map.now.height ore.old }
    requires way { IfSome (actor_of t.old.actors id) (HasWay g.now.map.now) }
    ensures harvested { IsHarvested t.old t.new ore.new purse.new
        (harvested_by_id (setup_in g.now) (built_in g.now)
        (record { actors = t.old.actors; ore = ore.old; cash = purse.old })
        (actor_of t.old.actors id)) }
    ensures size { HasSize g.now.map.now.width g.now.map.now.height ore.new }
    ensures router { IsSameSize r.old r.new }
{
    r.look(g.map, g.blocks);
    harvest_step_on_current_ground(t, r, g, ore, purse, id);
}

/// [`harvest_step`] with a router that looks at the ground.
pub fn harvest_step_on_current_ground(
    t: &mut ActorTable,
    r: &mut Router,
    g: &Ground,
    ore: &mut Ore,
    purse: &mut Purse,
    id: u32,
)
    requires fits { SeesMap g.now.map.now (built_in g.now) t.old r.old }
    requires ore { HasSize g.now.map.now.width g.now.map.now.height ore.old }
    requires way { IfSome (actor_of t.old.actors id) (HasWay g.now.map.now) }
    ensures harvested { IsHarvested t.old t.new ore.new purse.new
        (harvested_by_id (setup_in g.now) (built_in g.now)
        (record { actors = t.old.actors; ore = ore.old; cash = purse.old })
        (actor_of t.old.actors id)) }
    ensures size { HasSize g.now.map.now.width g.now.map.now.height ore.new }
    ensures router { IsSameSight r.old r.new }
{
    let Some(a) = t.get(id) else {
        return;
    };
    let Some(first) = a.body.acts.head() else {
        return;
    };
    let first = *first;
    harvest_by(t, r, g, ore, purse, id, first);
}
