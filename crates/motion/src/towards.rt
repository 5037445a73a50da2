ghost use Rattle.std.specs.Prelude.{◌≡◌, ◌<◌, false, IsSome, Some};
ghost use Rattle.world_units.specs.Angles.{dir_angle_of};
ghost use Rattle.world_units.specs.Turning.{turn_of};
ghost use Rattle.game_model.specs.declared.actor.Actor.{Actor};
ghost use Rattle.game_model.specs.ActorChanges.{changed_at, with_body};
ghost use Rattle.game_model.specs.Grid.{IsOn};
ghost use Rattle.game_model.specs.World.{actor_of, is_occupied};
ghost use Rattle.game_model.specs.Kinds.{kind_of, turning_in};
ghost use Rattle.game_model.specs.Setup.{setup_in};
ghost use Rattle.game_tick.specs.Moving.{moved_by_id, moved_into, set_out, waiting_after};
ghost use Rattle.grid_routes.specs.Routing.{IsSameSight, IsSameSize};
ghost use Rattle.motion.specs.Ground.{FitsMap, SeesMap, built_in};
ghost use Rattle.motion.specs.Steps.{IsMoved, gone_by_id, after_move_by_id};

use crate::acts::{go_on, pop_head, waits_of};
use crate::fields::{costs_of, speed_of, turning_of};
use crate::leg::leg_after;
use activities::Activity;
use actor_table::ActorTable;
use game_model::{Ground, Leg, MAX_WAITS};
use game_tick::Moving;
use grid_routes::Router;
use rule_traits::Rules;
use world_units::{CPos, DIRECTIONS, dir_angle, step, turn_towards};

/// One more wait. At [`MAX_WAITS`] the actor gives up.
fn waiting_after(waits: u8) -> Moving
    ensures { result ≡ waiting_after waits }
{
    let waits = waits.saturating_add(1);
    if waits < MAX_WAITS {
        Moving::Going(waits)
    } else {
        Moving::GivenUp
    }
}

/// Turns the actor of an id, if it is there, towards a direction, by what its kind turns in a turn.
fn turn(t: &mut ActorTable, rules: &Rules, id: u32, d: u8)
    requires { d < DIRECTIONS }
    ensures { (a : Actor) → actor_of t.old.actors id ≡ Some a → t.new ≡ record t.old {
      actors =
          with_body t.old.actors a.id (record a.body {
            facing = turn_of a.body.facing
                (dir_angle_of d) (turning_in (kind_of rules.now a.kind).mobile);
          });
    } }
{
    let _ids_rise = t.len();
    let Some(a) = t.get(id) else {
        return;
    };
    let facing = turn_towards(a.body.facing, dir_angle(d), turning_of(rules, a.kind));
    t.set_facing(id, facing);
}

/// The actor of an id, which is there, sets out for a free cell in a direction: it holds that cell
/// from now on, and begins a leg with its first step.
fn set_out(t: &mut ActorTable, rules: &Rules, id: u32, d: u8, next: CPos)
    requires there { IsSome (actor_of t.old.actors id) }
    requires direction { d < DIRECTIONS }
    requires on { IsOn t.old.width t.old.height next }
    requires free { is_occupied t.old.actors next ≡ false }
    ensures { (a : Actor) → actor_of t.old.actors id ≡ Some a → t.new ≡ record t.old {
      actors =
          changed_at t.old.actors id (set_out (kind_of rules.now a.kind) d next);
    } }
{
    let _ids_rise = t.len();
    let Some(a) = t.get(id) else {
        return;
    };
    let leg = Leg {
        dir: d,
        progress: 0,
    };
    let leg = leg_after(speed_of(rules, a.kind), Some(leg));
    t.move_to(id, next);
    t.set_leg(id, leg);
}

/// The actor of an id, which is there and faces a cell in a direction, waits where that cell is
/// occupied, after so many waits in a row, and else sets out.
fn enter(t: &mut ActorTable, rules: &Rules, id: u32, d: u8, next: CPos, waits: u8) -> Moving
    requires there { IsSome (actor_of t.old.actors id) }
    requires direction { d < DIRECTIONS }
    requires on { IsOn t.old.width t.old.height next }
    ensures { (a : Actor) → actor_of t.old.actors id ≡ Some a → IsMoved t.old t.new result
        (moved_into (kind_of rules.now a.kind) t.old.actors id waits d (Some next)) }
{
    if t.at_cell(next).is_some() {
        return waiting_after(waits);
    }
    set_out(t, rules, id, d, next);
    Moving::Going(0)
}

/// A step of the actor of an id towards a cell of the map, after so many waits in a row. It turns
/// until it faces the next cell of a least-cost route. Then it waits where that cell is occupied,
/// and else sets out: it holds the cell from now on, and begins a leg with its first step.
///
/// The answer is that it gave up where there is no route, as at the cell itself, where it has
/// waited too often, or where there is no such actor.
pub fn move_step(
    t: &mut ActorTable,
    r: &mut Router,
    g: &Ground,
    id: u32,
    goal: CPos,
    waits: u8,
) -> Moving
    requires fits { FitsMap g.now.map.now (built_in g.now) t.old r.old }
    requires goal { IsOn g.now.map.now.width g.now.map.now.height goal }
    ensures moved { IsMoved t.old t.new result (moved_by_id (setup_in g.now) (built_in g.now)
        t.old.actors goal waits (actor_of t.old.actors id)) }
    ensures router { IsSameSize r.old r.new }
{
    r.look(g.map, g.blocks);
    move_step_on_current_ground(t, r, g, id, goal, waits)
}

/// [`move_step`] with a router that looks at the ground.
pub fn move_step_on_current_ground(
    t: &mut ActorTable,
    r: &mut Router,
    g: &Ground,
    id: u32,
    goal: CPos,
    waits: u8,
) -> Moving
    requires fits { SeesMap g.now.map.now (built_in g.now) t.old r.old }
    requires goal { IsOn g.now.map.now.width g.now.map.now.height goal }
    ensures moved { IsMoved t.old t.new result (moved_by_id (setup_in g.now) (built_in g.now)
        t.old.actors goal waits (actor_of t.old.actors id)) }
    ensures router { IsSameSight r.old r.new }
{
    let _on_map = t.len();
    let Some(a) = t.get(id) else {
        return Moving::GivenUp;
    };
    let (cell, facing) = (a.cell, a.body.facing);
    let costs = costs_of(g.rules, a.kind);
    let Some(d) = r.best_dir_on_current_ground(&costs, cell, goal) else {
        return Moving::GivenUp;
    };
    if facing.units() != dir_angle(d).units() {
        turn(t, g.rules, id, d);
        return Moving::Going(waits);
    }
    match step(cell, d) {
        Some(next) => enter(t, g.rules, id, d, next, waits),
        None => Moving::GivenUp,
    }
}

/// A step of the actor of an id towards a cell of the map, at the activity that leads there. The
/// actor goes on with the activity, which counts its waits, or drops it where it gave up. Nothing
/// changes where there is no such actor.
pub fn go_towards(
    t: &mut ActorTable,
    r: &mut Router,
    g: &Ground,
    id: u32,
    goal: CPos,
    activity: Activity,
)
    requires fits { FitsMap g.now.map.now (built_in g.now) t.old r.old }
    requires goal { IsOn g.now.map.now.width g.now.map.now.height goal }
    ensures actors { t.new ≡ record t.old {
      actors = gone_by_id (setup_in g.now) (built_in g.now)
          t.old.actors goal activity (actor_of t.old.actors id);
    } }
    ensures router { IsSameSize r.old r.new }
{
    r.look(g.map, g.blocks);
    go_towards_on_current_ground(t, r, g, id, goal, activity);
}

/// [`go_towards`] with a router that looks at the ground.
pub fn go_towards_on_current_ground(
    t: &mut ActorTable,
    r: &mut Router,
    g: &Ground,
    id: u32,
    goal: CPos,
    activity: Activity,
)
    requires fits { SeesMap g.now.map.now (built_in g.now) t.old r.old }
    requires goal { IsOn g.now.map.now.width g.now.map.now.height goal }
    ensures actors { t.new ≡ record t.old {
      actors = gone_by_id (setup_in g.now) (built_in g.now)
          t.old.actors goal activity (actor_of t.old.actors id);
    } }
    ensures router { IsSameSight r.old r.new }
{
    let moving = move_step_on_current_ground(t, r, g, id, goal, waits_of(&activity));
    go_on(t, id, moving, activity);
}

/// The step of a Move of the actor of an id to a cell of the map, after so many waits in a row: at
/// the cell the Move ends, elsewhere it leads there. Nothing changes where there is no such actor.
pub fn move_activity(t: &mut ActorTable, r: &mut Router, g: &Ground, id: u32, goal: CPos, waits: u8)
    requires fits { FitsMap g.now.map.now (built_in g.now) t.old r.old }
    requires goal { IsOn g.now.map.now.width g.now.map.now.height goal }
    ensures actors { t.new ≡ record t.old {
      actors = after_move_by_id (setup_in g.now)
          (built_in g.now) t.old.actors goal waits (actor_of t.old.actors id);
    } }
    ensures router { IsSameSize r.old r.new }
{
    r.look(g.map, g.blocks);
    move_activity_on_current_ground(t, r, g, id, goal, waits);
}

/// [`move_activity`] with a router that looks at the ground.
pub fn move_activity_on_current_ground(
    t: &mut ActorTable,
    r: &mut Router,
    g: &Ground,
    id: u32,
    goal: CPos,
    waits: u8,
)
    requires fits { SeesMap g.now.map.now (built_in g.now) t.old r.old }
    requires goal { IsOn g.now.map.now.width g.now.map.now.height goal }
    ensures actors { t.new ≡ record t.old {
      actors = after_move_by_id (setup_in g.now)
          (built_in g.now) t.old.actors goal waits (actor_of t.old.actors id);
    } }
    ensures router { IsSameSight r.old r.new }
{
    let Some(a) = t.get(id) else {
        return;
    };
    if a.cell == goal {
        pop_head(t, id);
    } else {
        go_towards_on_current_ground(t, r, g, id, goal, Activity::Move { goal, waits });
    }
}
