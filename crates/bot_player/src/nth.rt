ghost use Rattle.std.specs.Prelude.{◌≡◌, ◌<◌, length, slice_get, Some};

use game_model::Actor;
use shroud::LendsActors;

/// The i-th of the actors that are lent, from 0, which is there.
pub(crate) fn nth_actor<A: LendsActors>(actors: &A, i: usize) -> &Actor
    requires { i < length (A.actors_of actors.now) }
    ensures { slice_get (A.actors_of actors.now) i ≡ Some result.now }
{
    let Some(actor) = actors.actor_at(i) else {
        unreachable!()
    };
    actor
}
