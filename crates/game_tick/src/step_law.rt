ghost use Rattle.std.specs.Prelude.{◌≡◌, ◌≢◌, ◌<◌, ℕ, Bool};
ghost use Rattle.std.specs.Prelude.{List, Some};
ghost use Rattle.std.specs.List.{AllPairs};
ghost use Rattle.world_units.specs.declared.cell.CPos.{CPos};
ghost use Rattle.game_model.specs.declared.actor.Actor.{Actor};
ghost use Rattle.game_model.specs.declared.world.World.{World};
ghost use Rattle.game_model.specs.Grid.{Grid};
ghost use Rattle.game_model.specs.Setup.{Setup};
ghost use Rattle.game_model.specs.World.{living_of};
ghost use Rattle.game_tick.specs.Moving.{moved_towards};
ghost use Rattle.game_tick.specs.Idle.{IsIdle};
ghost use Rattle.game_tick.specs.Turn.{after_step, with_reload};

/// A law of moves: where ids rise and no two actors hold one cell, no two hold one after a step of
/// a living actor towards a cell.
pub fn moves_keep_apart()
    ensures { (setup : Setup) (built : Grid Bool) (actors : List Actor) (id : ℕ) (a : Actor) (goal :
        CPos) (waits : ℕ) → living_of actors id ≡ Some a → AllPairs (λ (x y : Actor). x.id < y.id)
        actors → AllPairs (λ (x y : Actor). x.cell ≢ y.cell) actors → AllPairs (λ (x y : Actor).
        x.cell ≢ y.cell) (moved_towards setup built actors a goal waits).actors }
{}

/// A law of idle actors: the step of an actor without activities, leg and builds is that it
/// reloads, and nothing else.
pub fn idle_actors_stay()
    ensures { (setup : Setup) (w : World) (id : ℕ) (a : Actor) → living_of w.actors id ≡ Some a →
        IsIdle a → after_step setup w id ≡ with_reload w id }
{}
