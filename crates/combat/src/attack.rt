ghost use Rattle.std.specs.Prelude.{◌≡◌, ◌-◌, ◌^◌, ◌<◌, Some};
ghost use Rattle.game_model.specs.declared.actor.Actor.{Actor};
ghost use Rattle.game_model.specs.World.{actor_of};
ghost use Rattle.game_model.specs.Setup.{setup_in};
ghost use Rattle.game_tick.specs.Attacking.{after_attack};
ghost use Rattle.grid_routes.specs.Routing.{IsSameSight, IsSameSize};
ghost use Rattle.motion.specs.Ground.{FitsMap, SeesMap, built_in};
ghost use Rattle.combat.specs.Attacks.{IsFought, after_first, fought_by_id};

use crate::fields::{is_in_range, moves};
use crate::shot::fire;
use activities::Activity;
use actor_table::ActorTable;
use game_model::Ground;
use grid_routes::Router;
use motion::{go_towards_on_current_ground, pop_head};
use twister::Twister;

/// The step of an attack of the actor of an id on a target, after so many waits in a row. The first
/// applicable case decides: the target lives no more, and the attack ends; it is within range, and
/// the actor fires if it is loaded, else waits for that; the actor goes towards it; or, where it
/// can't move, the attack ends.
fn attack(
    t: &mut ActorTable,
    r: &mut Router,
    g: &Ground,
    dice: &mut Twister,
    id: u32,
    target: u32,
    waits: u8,
)
    requires fits { SeesMap g.now.map.now (built_in g.now) t.old r.old }
    requires drawn { dice.old.drawn < 2 ^ 64 - 1 }
    ensures fought { (a : Actor) → actor_of t.old.actors id ≡ Some a → IsFought t.old t.new dice.new
        (after_attack (setup_in g.now) (built_in g.now) dice.old t.old.actors a target waits) }
    ensures router { IsSameSight r.old r.new }
{
    let _on_map = t.len();
    let Some(a) = t.get(id) else {
        return;
    };
    let (kind, from, reload) = (a.kind, a.cell, a.body.reload);
    let Some(aim) = t.living(target) else {
        pop_head(t, id);
        return;
    };
    let to = aim.cell;
    if is_in_range(g.rules, kind, from, to) {
        if reload == 0 {
            fire(t, g.rules, dice, id, kind, target);
        }
    } else if moves(g.rules, kind) {
        go_towards_on_current_ground(t, r, g, id, to, Activity::Attack { target, waits });
    } else {
        pop_head(t, id);
    }
}

/// The step of an activity of the actor of an id, where that is an attack.
fn attack_by(
    t: &mut ActorTable,
    r: &mut Router,
    g: &Ground,
    dice: &mut Twister,
    id: u32,
    first: Activity,
)
    requires fits { SeesMap g.now.map.now (built_in g.now) t.old r.old }
    requires drawn { dice.old.drawn < 2 ^ 64 - 1 }
    ensures fought { (a : Actor) → actor_of t.old.actors id ≡ Some a → IsFought t.old t.new dice.new
        (after_first (setup_in g.now) (built_in g.now) dice.old t.old.actors a (Some first)) }
    ensures router { IsSameSight r.old r.new }
{
    match first {
        Activity::Attack { target, waits } => attack(t, r, g, dice, id, target, waits),
        Activity::Move { .. } | Activity::Harvest { .. } | Activity::Deliver { .. } => {}
    }
}

/// The step of the actor of an id whose first activity is an Attack, at fewer than 2^64 - 1 draws
/// so far. Nothing changes where there is no such actor, or where its first activity is another.
pub fn attack_step(t: &mut ActorTable, r: &mut Router, g: &Ground, dice: &mut Twister, id: u32)
    requires fits { FitsMap g.now.map.now (built_in g.now) t.old r.old }
    requires drawn { dice.old.drawn < 2 ^ 64 - 1 }
    ensures fought { IsFought t.old t.new dice.new (fought_by_id (setup_in g.now) (built_in g.now)
        dice.old t.old.actors (actor_of t.old.actors id)) }
    ensures router { IsSameSize r.old r.new }
{
    r.look(g.map, g.blocks);
    attack_step_on_current_ground(t, r, g, dice, id);
}

/// [`attack_step`] with a router that looks at the ground.
pub fn attack_step_on_current_ground(
    t: &mut ActorTable,
    r: &mut Router,
    g: &Ground,
    dice: &mut Twister,
    id: u32,
)
    requires fits { SeesMap g.now.map.now (built_in g.now) t.old r.old }
    requires drawn { dice.old.drawn < 2 ^ 64 - 1 }
    ensures fought { IsFought t.old t.new dice.new (fought_by_id (setup_in g.now) (built_in g.now)
        dice.old t.old.actors (actor_of t.old.actors id)) }
    ensures router { IsSameSight r.old r.new }
{
    let Some(a) = t.get(id) else {
        return;
    };
    let Some(first) = a.body.acts.head() else {
        return;
    };
    let first = *first;
    attack_by(t, r, g, dice, id, first);
}
