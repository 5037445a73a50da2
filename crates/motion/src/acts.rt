ghost use Rattle.std.specs.Prelude.{◌≡◌};
ghost use Rattle.game_model.specs.ActorChanges.{changed_at};
ghost use Rattle.game_tick.specs.Acts.{popped, with_first};
ghost use Rattle.game_tick.specs.Moving.{gone_on};
ghost use Rattle.motion.specs.Steps.{waits_of, with_waits};

use activities::Activity;
use actor_table::ActorTable;
use game_tick::Moving;

/// How many steps in a row the actor of the activity has waited.
pub(crate) fn waits_of(activity: &Activity) -> u8
    ensures { result ≡ waits_of activity.now }
{
    match activity {
        Activity::Move { waits, .. }
        | Activity::Attack { waits, .. }
        | Activity::Harvest { waits, .. }
        | Activity::Deliver { waits, .. } => *waits,
    }
}

/// The same activity after so many waits in a row.
pub(crate) fn with_waits(activity: Activity, waits: u8) -> Activity
    ensures { result ≡ with_waits activity waits }
{
    match activity {
        Activity::Move { goal, .. } => Activity::Move { goal, waits },
        Activity::Attack { target, .. } => Activity::Attack { target, waits },
        Activity::Harvest { cell, timer, .. } => Activity::Harvest { cell, timer, waits },
        Activity::Deliver { home, timer, .. } => Activity::Deliver { home, timer, waits },
    }
}

/// Puts the activity in place of the first one of the actor of an id, if the actor is there. It is
/// the first one also where there was none.
pub fn set_head(t: &mut ActorTable, id: u32, activity: Activity)
    ensures { t.new ≡ record t.old { actors = changed_at t.old.actors id (with_first activity) } }
{
    let _ids_rise = t.len();
    let Some(_) = t.get(id) else {
        return;
    };
    t.set_first(id, activity);
}

/// Takes the first activity of the actor of an id out, if both are there.
pub fn pop_head(t: &mut ActorTable, id: u32)
    ensures { t.new ≡ record t.old { actors = changed_at t.old.actors id popped } }
{
    let _ids_rise = t.len();
    let Some(_) = t.get(id) else {
        return;
    };
    t.pop_first(id);
}

/// After a step towards a cell that ended so: the actor of an id goes on with the activity, which
/// counts its waits, in place of its first one; or it drops its first one where it gave up.
pub fn go_on(t: &mut ActorTable, id: u32, moving: Moving, activity: Activity)
    ensures { t.new ≡ record t.old { actors = gone_on t.old.actors id (with_waits activity) moving } }
{
    match moving {
        Moving::Going(waits) => set_head(t, id, with_waits(activity, waits)),
        Moving::GivenUp => pop_head(t, id),
    }
}
