ghost use Rattle.std.specs.Prelude.{◌≡◌, ◌&&◌, true, false, not, filter, if◌then◌else◌, IfOk};
ghost use Rattle.std.specs.List.{All};
ghost use Rattle.game_model.specs.declared.actor.Actor.{Actor as TheActor};
ghost use Rattle.game_model.specs.Buildings.{is_building};
ghost use Rattle.game_model.specs.Grid.{IsOn, with_cell};
ghost use Rattle.game_model.specs.World.{is_alive};
ghost use Rattle.game_tick.specs.Turn.{blocks_of};

use crate::burial::is_alive;
use actor_table::ActorTable;
use base::NoMemory;
use game_model::{Actor, Blocks, Map};
use rule_traits::Rules;
use std::alloc::Global;

/// Whether actors of a kind are buildings.
pub(crate) fn is_building(rules: &Rules, a: &Actor) -> bool
    ensures { result ≡ is_building rules.now a.now }
{
    match rules.get(a.kind) {
        Some(kind) => kind.building,
        None => false,
    }
}

/// The cells of the map on which buildings of these actors stand. Out of memory is the only error.
pub(crate) fn blocks_of(
    alloc: Global,
    rules: &Rules,
    map: &Map,
    actors: &[Actor],
) -> Result<Blocks, NoMemory>
    requires on_map { All (λ (a : TheActor). IsOn map.now.width map.now.height a.cell) actors.now }
    ensures { IfOk result (λ blocks. blocks ≡ blocks_of (record { rules = rules.now; map = map.now }) actors.now) }
{
    let mut blocks = Blocks::create(alloc, map.width, map.height)?;
    for a in actors {
        mark(&mut blocks, rules, a);
    }
    Ok(blocks)
}

/// Marks the cell of an actor that is a building.
fn mark(blocks: &mut Blocks, rules: &Rules, a: &Actor)
    requires { IsOn blocks.old.width blocks.old.height a.now.cell }
    ensures { blocks.new ≡ (if is_building rules.now a.now then with_cell blocks.old a.now.cell true
        else blocks.old) }
{
    if is_building(rules, a) {
        blocks.set(a.cell, true);
    }
}

/// Clears the cell of an actor that is a building without health.
fn unmark(blocks: &mut Blocks, rules: &Rules, a: &Actor)
    requires { IsOn blocks.old.width blocks.old.height a.now.cell }
    ensures { blocks.new ≡ (if not (is_alive a.now) && is_building rules.now a.now then with_cell
        blocks.old a.now.cell false else blocks.old) }
{
    if !is_alive(a) && is_building(rules, a) {
        blocks.set(a.cell, false);
    }
}

/// Clears the cells of the buildings without health.
pub(crate) fn clear_dead(table: &ActorTable, rules: &Rules, map: &Map, blocks: &mut Blocks)
    requires width { table.now.width ≡ map.now.width }
    requires height { table.now.height ≡ map.now.height }
    requires blocks { blocks.old ≡ blocks_of (record { rules = rules.now; map = map.now }) table.now.actors }
    ensures { blocks.new ≡ blocks_of (record { rules = rules.now; map = map.now }) (filter is_alive table.now.actors) }
{
    let _ = map;
    for i in 0..table.len() {
        let Some(a) = table.nth_actor(i) else {
            unreachable!()
        };
        unmark(blocks, rules, a);
    }
}
