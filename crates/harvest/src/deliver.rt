ghost use Rattle.std.specs.Prelude.{◌≡◌, ℕ, List, Some};
ghost use Rattle.game_model.specs.declared.actor.Actor.{Actor};
ghost use Rattle.game_model.specs.Grid.{Grid};
ghost use Rattle.game_model.specs.World.{actor_of};
ghost use Rattle.game_tick.specs.Harvesting.{after_deliver, after_unloading};
ghost use Rattle.grid_routes.specs.Routing.{IsSameSight};
ghost use Rattle.motion.specs.Ground.{SeesMap, built_in};
ghost use Rattle.game_model.specs.Kinds.{kind_of};
ghost use Rattle.game_model.specs.Setup.{setup_in};
ghost use Rattle.harvest.specs.Steps.{IsHarvested};

use crate::fields::{bale_value_of, is_beside, is_unloaded};
use crate::load::carry;
use crate::refinery::nearest_refinery;
use activities::Activity;
use actor_table::ActorTable;
use game_model::{Ground, Purse};
use grid_routes::Router;
use motion::{go_towards_on_current_ground, pop_head, set_head};
use production::pay;
use rule_traits::Rules;
use world_units::CPos;

/// A Deliver beside a refinery: one turn more, and after as many as a bale takes a bale is unloaded
/// and paid with its value.
fn unload_turn(
    t: &mut ActorTable,
    rules: &Rules,
    purse: &mut Purse,
    id: u32,
    value: u32,
    home: CPos,
    timer: u16,
    waits: u8,
)
    ensures { (ore : Grid ℕ) (a : Actor) → actor_of t.old.actors id ≡ Some a →
        IsHarvested t.old t.new ore purse.new (after_unloading
        (record { actors = t.old.actors; ore = ore; cash = purse.old }) a (kind_of rules.now a.kind)
        value home timer waits) }
{
    let _ids_rise = t.len();
    let Some(a) = t.get(id) else {
        return;
    };
    let (kind, owner, load) = (a.kind, a.body.owner, a.body.load);
    if is_unloaded(rules, kind, timer) {
        let (timer, left) = (0, load.saturating_sub(1));
        pay(purse, owner, value);
        carry(t, id, left, Activity::Deliver { home, timer, waits });
    } else {
        set_head(
            t,
            id,
            Activity::Deliver {
                home,
                timer: timer + 1,
                waits,
            },
        );
    }
}

/// The step of a Deliver. Without a load the actor is to harvest at home again; without a refinery
/// the activity ends; beside the nearest one the actor unloads, elsewhere it moves towards it.
pub(crate) fn deliver(
    t: &mut ActorTable,
    r: &mut Router,
    g: &Ground,
    purse: &mut Purse,
    id: u32,
    home: CPos,
    timer: u16,
    waits: u8,
)
    requires fits { SeesMap g.now.map.now (built_in g.now) t.old r.old }
    ensures delivered { (ore : Grid ℕ) (a : Actor) → actor_of t.old.actors id ≡ Some a →
        IsHarvested t.old t.new ore purse.new (after_deliver (setup_in g.now) (built_in g.now)
        (record { actors = t.old.actors; ore = ore; cash = purse.old }) a home timer waits) }
    ensures router { IsSameSight r.old r.new }
{
    let _on_map = t.len();
    let Some(a) = t.get(id) else {
        return;
    };
    if a.body.load == 0 {
        let cell = home;
        set_head(
            t,
            id,
            Activity::Harvest {
                cell,
                timer: 0,
                waits: 0,
            },
        );
        return;
    }
    let from = a.cell;
    let Some(refinery) = nearest_refinery(t, g.rules, a) else {
        pop_head(t, id);
        return;
    };
    let (to, value) = (refinery.cell, bale_value_of(g.rules, refinery.kind));
    if is_beside(from, to) {
        unload_turn(t, g.rules, purse, id, value, home, timer, waits);
    } else {
        go_towards_on_current_ground(t, r, g, id, to, Activity::Deliver { home, timer, waits });
    }
}
