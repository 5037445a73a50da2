ghost use Rattle.std.specs.Prelude.{◌≡◌};
ghost use Rattle.game_model.specs.declared.actor.Actor.{Actor};
ghost use Rattle.game_model.specs.ActorChanges.{changed_at};
ghost use Rattle.game_tick.specs.Acts.{with_first};
ghost use Rattle.game_tick.specs.Harvesting.{with_load};

use activities::Activity;
use actor_table::ActorTable;
use motion::set_head;

/// The actor of an id, if it is there, holds so many bales.
fn set_load(t: &mut ActorTable, id: u32, load: u16)
    ensures { t.new ≡ record t.old { actors = changed_at t.old.actors id (with_load load) } }
{
    let Some(_) = t.get(id) else {
        return;
    };
    t.set_load(id, load);
}

/// The actor of an id, if it is there, holds so many bales, and the activity takes the place of its
/// first.
pub(crate) fn carry(t: &mut ActorTable, id: u32, load: u16, activity: Activity)
    ensures { t.new ≡ record t.old {
      actors = changed_at t.old.actors id (λ (b : Actor). with_load load (with_first activity b));
    } }
{
    set_head(t, id, activity);
    set_load(t, id, load);
}
