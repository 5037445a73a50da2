//! The differences of two saves.
ghost use Rattle.std.specs.Prelude.{◌≡◌, ◌<◌, ◌%◌, ◌/◌, length, slice_get, Some, OnOk};
ghost use Rattle.std.specs.Option.{option_copied};
ghost use Rattle.compare_command.specs.declared.subject.Subject.TheVariants.{Cash, Gone};
ghost use Rattle.compare_command.specs.declared.subject.Subject.TheVariants.{Ore as OfOre};
ghost use Rattle.compare_command.specs.Difference.{Flags, Numbers, compared_if};
ghost use Rattle.compare_command.specs.Each.{each};
ghost use Rattle.compare_command.specs.Found.{with_found};
ghost use Rattle.compare_command.specs.Merging.{HasIds};
ghost use Rattle.compare_command.specs.Saves.{actors_differences, cell_of, client_differences};
ghost use Rattle.compare_command.specs.Saves.{clients_differences};
ghost use Rattle.compare_command.specs.Saves.{draw_differences, head_differences};
ghost use Rattle.compare_command.specs.Saves.{number_differences};
ghost use Rattle.compare_command.specs.Saves.{ore_differences, save_differences};

use crate::actors::compare_actors;
use crate::found::Found;
use crate::items::item_of;
use crate::subject::Subject;
use crate::values::{Values, numbers, small_numbers};
use base::NoMemory;
use game_model::{Ore, World};
use game_save::Saved;

/// Finds the differences of two saves over one map.
#[tactic(auto, using(crate::proofs::FoundLemmas::found_steps))]
pub(crate) fn compare_saves(found: &mut Found, a: &Saved, b: &Saved) -> Result<(), NoMemory>
    requires ids { HasIds a.now.world }
    requires other_ids { HasIds b.now.world }
    ensures { OnOk result (found.new ≡ with_found found.old
        (save_differences a.now b.now)) }
{
    compare_heads(found, a, b)?;
    compare_clients(found, &a.world, &b.world)?;
    compare_ids(found, &a.world, &b.world)?;
    compare_ore(found, &a.world.ore, &b.world.ore)
}

/// Finds those of all but clients, actors and ore.
#[tactic(auto, using(crate::proofs::FoundLemmas::found_steps))]
fn compare_heads(found: &mut Found, a: &Saved, b: &Saved) -> Result<(), NoMemory>
    ensures { OnOk result (found.new ≡ with_found found.old (head_differences a.now b.now)) }
{
    found.compare(Subject::Frames, numbers(a.frames, b.frames))?;
    found.compare(Subject::Tick, numbers(a.world.tick, b.world.tick))?;
    compare_draws(found, &a.world, &b.world)?;
    compare_counts(found, &a.world, &b.world)
}

/// Finds those of the random words.
#[tactic(auto, using(crate::proofs::FoundLemmas::found_steps))]
fn compare_draws(found: &mut Found, a: &World, b: &World) -> Result<(), NoMemory>
    ensures { OnOk result (found.new ≡ with_found found.old (draw_differences a.now b.now)) }
{
    found.compare(Subject::Seed, numbers(a.seed, b.seed))?;
    found.compare(Subject::Drawn, Values::Numbers(a.drawn, b.drawn))
}

/// Finds those of the next id, the pace and the number of clients.
#[tactic(auto, using(crate::proofs::FoundLemmas::found_steps))]
fn compare_counts(found: &mut Found, a: &World, b: &World) -> Result<(), NoMemory>
    ensures { OnOk result (found.new ≡ with_found found.old (number_differences a.now b.now)) }
{
    found.compare(Subject::Next, numbers(a.next_id, b.next_id))?;
    found.compare(Subject::Pace, small_numbers(a.pace, b.pace))?;
    let (clients, others) = (a.cash.clients(), b.cash.clients());
    found.compare(Subject::Clients, small_numbers(clients, others))
}

/// Finds those of all clients that both have.
fn compare_clients(found: &mut Found, a: &World, b: &World) -> Result<(), NoMemory>
    ensures { OnOk result (found.new ≡ with_found found.old
        (clients_differences a.now b.now)) }
{
    let count = a.cash.clients().min(b.cash.clients());
    for client in 0..count {
        compare_client(found, client, a, b)?;
    }
    Ok(())
}

/// Finds those of a client, if both have it.
#[tactic(auto, using(crate::proofs::FoundLemmas::found_steps))]
fn compare_client(found: &mut Found, client: u8, a: &World, b: &World) -> Result<(), NoMemory>
    ensures { OnOk result (found.new ≡ with_found found.old
        (client_differences a.now b.now client)) }
{
    let (cash, other_cash) = (cash_of(a, client), cash_of(b, client));
    compare_cash(found, client, cash, other_cash)?;
    let (gone, other_gone) = (gone_of(a, client), gone_of(b, client));
    compare_gone(found, client, gone, other_gone)
}

/// The cash of a client, if there is such a client.
fn cash_of(w: &World, client: u8) -> Option<&u32>
    ensures { option_copied result ≡ slice_get w.now.cash client }
{
    item_of(w.cash.as_slice(), usize::from(client))
}

/// The departure flag of a client, if there is such a client.
fn gone_of(w: &World, client: u8) -> Option<&bool>
    ensures { option_copied result ≡ slice_get w.now.gone client }
{
    item_of(w.gone.as_slice(), usize::from(client))
}

/// Finds that of a client's cash, if both have it.
#[tactic(auto, using(crate::proofs::FoundLemmas::found_steps))]
fn compare_cash(
    found: &mut Found,
    client: u8,
    cash: Option<&u32>,
    other: Option<&u32>,
) -> Result<(), NoMemory>
    ensures { OnOk result (found.new ≡ with_found found.old (compared_if (Cash client) Numbers
        (option_copied cash.entry) (option_copied other.entry))) }
{
    match (cash, other) {
        (Some(cash), Some(other)) => found.compare(Subject::Cash(client), numbers(*cash, *other)),
        (Some(_), None) | (None, Some(_)) | (None, None) => Ok(()),
    }
}

/// Finds that of a client's departure flag, if both have it.
#[tactic(auto, using(crate::proofs::FoundLemmas::found_steps))]
fn compare_gone(
    found: &mut Found,
    client: u8,
    gone: Option<&bool>,
    other: Option<&bool>,
) -> Result<(), NoMemory>
    ensures { OnOk result (found.new ≡ with_found found.old (compared_if (Gone client) Flags
        (option_copied gone.entry) (option_copied other.entry))) }
{
    match (gone, other) {
        (Some(gone), Some(other)) => {
            found.compare(Subject::Gone(client), Values::Flags(*gone, *other))
        }
        (Some(_), None) | (None, Some(_)) | (None, None) => Ok(()),
    }
}

/// Finds those of all actors, by rising id.
#[tactic(auto, using(crate::proofs::IdLemmas::ids_found))]
fn compare_ids(found: &mut Found, a: &World, b: &World) -> Result<(), NoMemory>
    requires first { HasIds a.now }
    requires second { HasIds b.now }
    ensures { OnOk result (found.new ≡ with_found found.old (actors_differences a.now b.now)) }
{
    compare_actors(found, a.actors.as_slice(), b.actors.as_slice())
}

/// Finds those of all cells, row by row.
#[tactic(auto, using(crate::proofs::FoundLemmas::found_steps))]
fn compare_ore(found: &mut Found, ore: &Ore, other: &Ore) -> Result<(), NoMemory>
    ensures { OnOk result (found.new ≡ with_found found.old
        (ore_differences ore.now other.now)) }
{
    let width = usize::from(ore.width());
    let cells = ore.as_slice();
    if width > 0 {
        compare_cells(found, width, cells, other.as_slice())
    } else {
        Ok(())
    }
}

/// Finds those of all cells of a map of this width.
fn compare_cells(
    found: &mut Found,
    width: usize,
    cells: &[u8],
    others: &[u8],
) -> Result<(), NoMemory>
    requires { 0 < width }
    ensures { OnOk result (found.new ≡ with_found found.old
        (each (cell_of width cells.now others.now) 0 (length cells.now))) }
{
    for (place, bales) in cells.iter().enumerate() {
        compare_cell(found, width, place, *bales, item_of(others, place))?;
    }
    Ok(())
}

/// Finds that of the cell at a place of the list of all cells.
#[tactic(auto, using(crate::proofs::FoundLemmas::found_steps))]
fn compare_cell(
    found: &mut Found,
    width: usize,
    place: usize,
    bales: u8,
    other: Option<&u8>,
) -> Result<(), NoMemory>
    requires { 0 < width }
    ensures { OnOk result (found.new ≡ with_found found.old
        (compared_if (OfOre (place % width) (place / width)) Numbers (Some bales)
        (option_copied other.entry))) }
{
    match other {
        Some(other) => found.compare(
            Subject::Ore(place % width, place / width),
            small_numbers(bales, *other),
        ),
        None => Ok(()),
    }
}
