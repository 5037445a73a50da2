ghost use Rattle.std.specs.Prelude.{◌≡◌, is_some};
ghost use Rattle.std.specs.List.{list_all, list_any};
ghost use Rattle.actor_table.specs.declared.listed.Listed.{Listed};
ghost use Rattle.game_model.specs.World.{living_of};
ghost use Rattle.game_tick.specs.Orders.{has_kind};

use actor_table::{ActorTable, Listed};

/// Whether an actor of these lives.
fn has_living(t: &ActorTable, entries: &[Listed]) -> bool
    ensures { result ≡ list_any (λ (e : Listed). is_some (living_of t.now.actors e.id)) entries.now }
{
    entries.iter().any(|e| t.living(e.id).is_some())
}

/// Whether a client owns a living actor of a kind.
fn has_kind(t: &ActorTable, client: u8, kind: u16) -> bool
    ensures { result ≡ has_kind t.now.actors client kind }
{
    let _ids_rise = t.len();
    has_living(t, t.of_kind(client, kind))
}

/// Whether a client owns a living actor of each of these kinds.
pub(crate) fn has_needs(t: &ActorTable, client: u8, kinds: &[u16]) -> bool
    ensures { result ≡ list_all (has_kind t.now.actors client) kinds.now }
{
    kinds.iter().all(|kind| has_kind(t, client, *kind))
}
