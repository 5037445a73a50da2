//! The differences of the actors of two saves.
ghost use Rattle.std.specs.Prelude.{◌≡◌, Some, IfOk, OnOk};
ghost use Rattle.std.specs.Option.{option_copied};
ghost use Rattle.compare_command.specs.Found.{with_found};
ghost use Rattle.compare_command.specs.Merging.{merged, next_differences, next_taken};
ghost use Rattle.compare_command.specs.Saves.{count_differences, field_differences};
ghost use Rattle.compare_command.specs.Saves.{place_differences, plan_differences};

use crate::found::Found;
use crate::items::item_of;
use crate::subject::{Field, Subject};
use crate::values::{Values, mid_numbers, numbers, small_numbers};
use base::NoMemory;
use game_model::{Actor, Body};

/// Finds those of two lists of actors by rising id.
pub(crate) fn compare_actors(
    found: &mut Found,
    actors: &[Actor],
    others: &[Actor],
) -> Result<(), NoMemory>
    ensures { OnOk result (found.new ≡ with_found found.old
        (merged actors.now others.now)) }
{
    let (mut i, mut j) = (0, 0);
    while i < actors.len() || j < others.len() {
        let taken = compare_next(found, item_of(actors, i), item_of(others, j))?;
        i += taken.0;
        j += taken.1;
    }
    Ok(())
}

/// Finds those of the lesser of the ids of the next actors, of which one may be missing. Returns
/// how many actors of either list have it.
#[tactic(auto, using(crate::proofs::FoundLemmas::found_steps))]
fn compare_next(
    found: &mut Found,
    actor: Option<&Actor>,
    other: Option<&Actor>,
) -> Result<(usize, usize), NoMemory>
    ensures { IfOk result (λ taken. (taken ≡ next_taken (option_copied actor.entry)
        (option_copied other.entry))
        × (found.new ≡ with_found found.old (next_differences (option_copied actor.entry) (option_copied other.entry)))) }
{
    match (actor, other) {
        (Some(p), Some(q)) => compare_two(found, p, q),
        (Some(p), None) => {
            found.add_first(p.id)?;
            Ok((1, 0))
        }
        (None, Some(q)) => {
            found.add_second(q.id)?;
            Ok((0, 1))
        }
        (None, None) => Ok((0, 0)),
    }
}

/// The same of two actors.
#[tactic(auto, using(crate::proofs::FoundLemmas::found_steps))]
fn compare_two(found: &mut Found, p: &Actor, q: &Actor) -> Result<(usize, usize), NoMemory>
    ensures { IfOk result (λ taken. (taken ≡ next_taken (Some p.now) (Some q.now))
        × (found.new ≡ with_found found.old (next_differences (Some p.now) (Some q.now)))) }
{
    if p.id < q.id {
        found.add_first(p.id)?;
        Ok((1, 0))
    } else if q.id < p.id {
        found.add_second(q.id)?;
        Ok((0, 1))
    } else {
        compare_fields(found, p, q)?;
        Ok((1, 1))
    }
}

/// Finds those of an actor that both have.
#[tactic(auto, using(crate::proofs::FoundLemmas::found_steps))]
fn compare_fields(found: &mut Found, p: &Actor, q: &Actor) -> Result<(), NoMemory>
    ensures { OnOk result (found.new ≡ with_found found.old
        (field_differences p.now q.now)) }
{
    let id = p.id;
    found.compare(Subject::Actor(id, Field::Kind), mid_numbers(p.kind, q.kind))?;
    let (owner, other) = (p.body.owner, q.body.owner);
    found.compare(
        Subject::Actor(id, Field::Owner),
        small_numbers(owner, other),
    )?;
    found.compare(
        Subject::Actor(id, Field::Cell),
        Values::Cells(p.cell, q.cell),
    )?;
    compare_places(found, id, &p.body, &q.body)?;
    compare_counts(found, id, &p.body, &q.body)?;
    compare_plans(found, id, &p.body, &q.body)
}

/// Finds those of an actor's facing and leg.
#[tactic(auto, using(crate::proofs::FoundLemmas::found_steps))]
fn compare_places(found: &mut Found, id: u32, p: &Body, q: &Body) -> Result<(), NoMemory>
    ensures { OnOk result (found.new ≡ with_found found.old
        (place_differences id p.now q.now)) }
{
    let (facing, other) = (p.facing.units(), q.facing.units());
    found.compare(
        Subject::Actor(id, Field::Facing),
        mid_numbers(facing, other),
    )?;
    found.compare(Subject::Actor(id, Field::Leg), Values::Legs(p.leg, q.leg))
}

/// Finds those of an actor's health, load and reload.
#[tactic(auto, using(crate::proofs::FoundLemmas::found_steps))]
fn compare_counts(found: &mut Found, id: u32, p: &Body, q: &Body) -> Result<(), NoMemory>
    ensures { OnOk result (found.new ≡ with_found found.old
        (count_differences id p.now q.now)) }
{
    found.compare(
        Subject::Actor(id, Field::Health),
        numbers(p.health, q.health),
    )?;
    found.compare(Subject::Actor(id, Field::Load), mid_numbers(p.load, q.load))?;
    found.compare(
        Subject::Actor(id, Field::Reload),
        mid_numbers(p.reload, q.reload),
    )
}

/// Finds those of what an actor is to do and to build.
#[tactic(auto, using(crate::proofs::FoundLemmas::found_steps))]
fn compare_plans(found: &mut Found, id: u32, p: &Body, q: &Body) -> Result<(), NoMemory>
    ensures { OnOk result (found.new ≡ with_found found.old
        (plan_differences id p.now q.now)) }
{
    let acts = Values::Acts(p.acts.as_slice(), q.acts.as_slice());
    found.compare(Subject::Actor(id, Field::Acts), acts)?;
    let builds = Values::Builds(p.builds.as_slice(), q.builds.as_slice());
    found.compare(Subject::Actor(id, Field::Builds), builds)
}
