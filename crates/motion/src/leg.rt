ghost use Rattle.std.specs.Prelude.{◌≡◌, ◌<◌, IfSome};
ghost use Rattle.game_model.specs.World.{actor_of};
ghost use Rattle.game_tick.specs.Moving.{after_leg, leg_step};
ghost use Rattle.motion.specs.Ground.{HasDirection};

use crate::fields::speed_of;
use actor_table::ActorTable;
use game_model::Leg;
use rule_traits::Rules;
use world_units::{DIRECTIONS, leg_length};

/// The leg after a step of so many units. It ends where it has its whole length.
pub(crate) fn leg_after(speed: u32, leg: Option<Leg>) -> Option<Leg>
    requires { IfSome leg (λ leg. leg.dir < DIRECTIONS) }
    ensures { result ≡ leg_step speed leg }
{
    let Some(leg) = leg else {
        return None;
    };
    let progress = leg.progress.saturating_add(speed);
    if progress < leg_length(leg.dir) {
        Some(Leg {
            dir: leg.dir,
            progress,
        })
    } else {
        None
    }
}

/// Goes on with the leg of the actor of an id by the speed of its kind. The leg, if there is one,
/// has one of the eight directions, as legs of a valid world have.
pub fn advance_leg(t: &mut ActorTable, rules: &Rules, id: u32)
    requires { IfSome (actor_of t.old.actors id) HasDirection }
    ensures { t.new ≡ record t.old { actors = after_leg rules.now t.old.actors id } }
{
    let _ids_rise = t.len();
    let Some(a) = t.get(id) else {
        return;
    };
    let leg = leg_after(speed_of(rules, a.kind), a.body.leg);
    t.set_leg(id, leg);
}
