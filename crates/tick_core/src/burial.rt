ghost use Rattle.std.specs.Prelude.{◌≡◌, filter, map};
ghost use Rattle.game_model.specs.World.{is_alive};
ghost use Rattle.game_tick.specs.Turn.{buried};
ghost use Rattle.sync_hash.specs.Kept.{numbered};
ghost use Rattle.tick_core.specs.Burial.{AreNumberedIf, without_dead, without_dead_if};

use crate::live_world::LiveWorld;
use crate::scene::Scene;
use actor_table::ActorTable;
use game_model::Actor;
use sync_hash::Hasher;

impl LiveWorld {
    /// Removes the actors without health. Where nobody has died since the last burial it looks at
    /// nobody.
    pub(crate) fn bury(&mut self)
        ensures { self.new ≡ (record self.old { world = buried self.old.world }) }
    {
        if self.deaths {
            self.bury_dead();
        }
    }

    /// Removes the actors without health.
    fn bury_dead(&mut self)
        ensures { self.new ≡ (record self.old { world = buried self.old.world }) }
    {
        self.scene.forget_the_dead(&mut self.hasher);
        self.scene.bury();
        self.deaths = false;
    }
}

impl Scene {
    /// Takes the numbers of the actors without health out of the hasher, if there is one.
    fn forget_the_dead(&self, hasher: &mut Option<Hasher>)
        requires { AreNumberedIf hasher.old self.now.world.actors }
        ensures { hasher.new ≡ without_dead_if hasher.old self.now.world.actors }
    {
        if let Some(hasher) = hasher {
            forget_the_dead(&self.table, hasher);
        }
    }
}

/// Takes the numbers of the actors without health out.
fn forget_the_dead(table: &ActorTable, hasher: &mut Hasher)
    requires { hasher.old.actors ≡ map numbered table.now.actors }
    ensures { hasher.new ≡ (record hasher.old {
      actors = map numbered
          (filter is_alive table.now.actors);
    }) }
{
    for i in 0..table.len() {
        let Some(actor) = table.nth_actor(i) else {
            unreachable!()
        };
        forget_if_dead(hasher, actor);
    }
}

/// Takes the number of an actor without health out.
fn forget_if_dead(hasher: &mut Hasher, actor: &Actor)
    ensures { hasher.new ≡ (record hasher.old { actors = without_dead hasher.old.actors actor.now }) }
{
    if !is_alive(actor) {
        hasher.actor_gone(actor.id);
    }
}

/// Whether an actor has health left.
pub(crate) fn is_alive(actor: &Actor) -> bool
    ensures { result ≡ is_alive actor.now }
{
    actor.body.health > 0
}
