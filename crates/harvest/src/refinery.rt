ghost use Rattle.std.specs.Prelude.{◌≡◌, is_some};
ghost use Rattle.std.specs.Option.{option_copied};
ghost use Rattle.game_model.specs.Kinds.{kind_of};
ghost use Rattle.game_model.specs.World.{actor_of};
ghost use Rattle.game_tick.specs.Harvesting.{nearest_refinery};
ghost use Rattle.game_model.specs.NearestActor.{IsNearest, is_nearer};
ghost use Rattle.harvest.specs.Refineries.{IsOtherRefinery, better_of, best_of_kind};

use actor_table::ActorTable;
use game_model::Actor;
use rule_traits::Rules;
use world_units::{CPos, dist_sq};

/// Whether actors of the kind take in ore.
fn is_refinery(rules: &Rules, kind: u16) -> bool
    ensures { result ≡ is_some (kind_of rules.now kind).refinery }
{
    match rules.get(kind) {
        Some(kind) => kind.refinery.is_some(),
        None => false,
    }
}

/// Whether an actor is nearer to a cell than another: its own cell is, or both are equally far and
/// its id is less.
fn is_nearer(from: CPos, other: &Actor, first: &Actor) -> bool
    ensures { result ≡ is_nearer from other.now first.now }
{
    let other_far = dist_sq(from, other.cell);
    let first_far = dist_sq(from, first.cell);
    other_far < first_far || other_far == first_far && other.id < first.id
}

/// The nearer of what was found and the actor of an id, if that is another one that lives.
fn better_of<'a>(
    t: &'a ActorTable,
    a: &Actor,
    best: Option<&'a Actor>,
    id: u32,
) -> Option<&'a Actor>
    ensures { option_copied result
        ≡ better_of a.now (option_copied best.entry) (actor_of t.now.actors id) }
{
    let Some(other) = t.get(id) else {
        return best;
    };
    if other.id == a.id || other.body.health == 0 {
        return best;
    }
    let Some(first) = best else {
        return Some(other);
    };
    if is_nearer(a.cell, other, first) {
        Some(other)
    } else {
        Some(first)
    }
}

/// The nearest of what was found and the actors of the owner that are of a kind, if that takes in
/// ore.
fn best_of_kind<'a>(
    t: &'a ActorTable,
    rules: &Rules,
    a: &Actor,
    kind: u16,
    found: Option<&'a Actor>,
) -> Option<&'a Actor>
    ensures { option_copied result
        ≡ best_of_kind rules.now t.now.actors a.now kind (option_copied found.entry) }
{
    if !is_refinery(rules, kind) {
        return found;
    }
    let mut best = found;
    for listed in t.of_kind(a.body.owner, kind) {
        best = better_of(t, a, best, listed.id);
    }
    best
}

/// The nearest other living refinery of the owner of an actor. Of those that are equally near, the
/// least id decides. Only the owner's actors of kinds that take in ore are looked at.
pub fn nearest_refinery<'a>(t: &'a ActorTable, rules: &Rules, a: &'a Actor) -> Option<&'a Actor>
    ensures value { option_copied result ≡ nearest_refinery rules.now t.now.actors a.now }
    ensures nearest { IsNearest a.now.cell (IsOtherRefinery rules.now t.now.actors a.now)
        (option_copied result) }
{
    let _ids_rise = t.len();
    let mut best = None;
    let mut last = None;
    while let Some(kind) = t.next_kind(a.body.owner, last) {
        best = best_of_kind(t, rules, a, kind, best);
        last = Some(kind);
    }
    best
}
