ghost use Rattle.std.specs.Prelude.{◌≡◌, IsSome};
ghost use Rattle.game_model.specs.ActorChanges.{changed_at};
ghost use Rattle.game_model.specs.World.{actor_of, full_health_of, new_actor};
ghost use Rattle.game_tick.specs.Building.{with_builds};
ghost use Rattle.rule_traits.specs.Rules.{kind_at};

use activities::Queue;
use actor_table::ActorTable;
use game_model::{Actor, Body, Builds};
use rule_traits::Rules;
use world_units::{CPos, WAngle};

/// Gives the actor of an id, which is there, these builds in place of its own.
pub(crate) fn give_builds(t: &mut ActorTable, id: u32, builds: Builds)
    requires { IsSome (actor_of t.old.actors id) }
    ensures { t.new ≡ record t.old { actors = changed_at t.old.actors id (with_builds builds) } }
{
    t.set_builds(id, builds);
}

/// The health with which an actor of a kind begins.
fn full_health(rules: &Rules, kind: u16) -> u32
    ensures { result ≡ full_health_of (kind_at rules.now kind) }
{
    match rules.get(kind) {
        Some(kind) => kind.hp(),
        None => 1,
    }
}

/// A new actor: at full health, with nothing to do.
pub(crate) fn new_actor(
    rules: &Rules,
    id: u32,
    kind: u16,
    owner: u8,
    cell: CPos,
    facing: WAngle,
) -> Actor
    ensures { result ≡ new_actor rules.now id kind owner cell facing }
{
    Actor {
        id,
        kind,
        cell,
        body: Body {
            owner,
            facing,
            leg: None,
            health: full_health(rules, kind),
            load: 0,
            reload: 0,
            acts: Queue::empty(),
            builds: Builds::empty(),
        },
    }
}
