ghost use Rattle.std.specs.Prelude.{◌≡◌, ◌-◌, ◌^◌, ◌<◌};
ghost use Rattle.twister.specs.Place.{after_word};
ghost use Rattle.game_model.specs.ActorChanges.{changed_at};
ghost use Rattle.game_model.specs.Kinds.{kind_of};
ghost use Rattle.game_tick.specs.Attacking.{hit_by, points_of, reloading};

use crate::fields::{armament_of, reload_of};
use actor_table::ActorTable;
use rule_traits::Rules;
use twister::Twister;

/// What a shot of an actor of the kind takes away: its damage, and a draw of up to its spread more.
/// It draws exactly one word, also where the spread is 0.
fn draw_points(rules: &Rules, kind: u16, dice: &mut Twister) -> u32
    requires { dice.old.drawn < 2 ^ 64 - 1 }
    ensures value { result ≡ points_of (kind_of rules.now kind) dice.old }
    ensures dice { dice.new ≡ after_word dice.old }
{
    let (damage, spread) = match armament_of(rules, kind) {
        Some(armament) => (armament.damage, armament.spread),
        None => (0, 0),
    };
    damage + dice.below(spread + 1)
}

/// Takes so many hit points from the actor of an id, if it is there, which has at least 0 left.
fn hit(t: &mut ActorTable, id: u32, points: u32)
    ensures { t.new ≡ record t.old { actors = changed_at t.old.actors id (hit_by points) } }
{
    let _ids_rise = t.len();
    let Some(a) = t.get(id) else {
        return;
    };
    let health = a.body.health.saturating_sub(points);
    t.set_health(id, health);
}

/// The actor of an id, if it is there, has just fired: it reloads as long as its kind does.
fn begin_reloading(t: &mut ActorTable, rules: &Rules, id: u32, kind: u16)
    ensures { t.new ≡ record t.old {
      actors = changed_at t.old.actors id
          (reloading (kind_of rules.now kind));
    } }
{
    let Some(_) = t.get(id) else {
        return;
    };
    t.set_reload(id, reload_of(rules, kind));
}

/// An actor of the kind fires at a target, both given by their ids.
pub(crate) fn fire(
    t: &mut ActorTable,
    rules: &Rules,
    dice: &mut Twister,
    id: u32,
    kind: u16,
    target: u32,
)
    requires { dice.old.drawn < 2 ^ 64 - 1 }
    ensures actors { t.new ≡ record t.old {
      actors = changed_at (changed_at t.old.actors target
          (hit_by (points_of (kind_of rules.now kind) dice.old))) id (reloading (kind_of rules.now
          kind));
    } }
    ensures dice { dice.new ≡ after_word dice.old }
{
    let points = draw_points(rules, kind, dice);
    hit(t, target, points);
    begin_reloading(t, rules, id, kind);
}
