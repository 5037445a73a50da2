ghost use Rattle.std.specs.Prelude.{◌≡◌, ◌<◌, Ok, IfOk, IfErr, OnOk};
ghost use Rattle.yaml_lines.specs.Trees.{trees_of};
ghost use Rattle.yaml_lines.specs.declared.forest.Forest.TheViews.{out-Node};
ghost use Rattle.game_model.specs.Grid.{IsOn};
ghost use Rattle.map_grid.specs.Each.{each, step_at};
ghost use Rattle.map_grid.specs.Fault.{IsMapFault};
ghost use Rattle.map_grid.specs.Starts.{facing_of, kind_of, location_of, owner_of, start_of};
ghost use Rattle.map_grid.specs.Starts.{start_taken, starts_of};

use crate::crowd::Crowd;
use crate::fault::MapFault;
use crate::fields::find;
use game_model::{MAX_ACTORS, NEUTRAL, Start, StartList};
use game_orders::MAX_CLIENTS;
use rule_traits::Rules;
use rule_values::{read_cell, read_number};
use std::alloc::Global;
use world_units::{CPos, FULL_TURN, WAngle};
use yaml_lines::{Forest, Node};

/// The number of the kind that an actor's value names. Its fault is `UnknownKind`.
#[tactic(auto, unfolding(crate::specs::Starts::kind_of))]
fn read_kind(rules: &Rules, actor: &Node) -> Result<u16, MapFault>
    ensures { result ≡ kind_of rules.now (out-Node actor.now).value (out-Node actor.now).place }
{
    match rules.number(actor.value.as_str()) {
        Some(kind) => Ok(kind),
        None => Err(MapFault::UnknownKind { place: actor.place }),
    }
}

/// The owner among an actor's fields. Its fault is `BadOwner`.
#[tactic(auto, unfolding(crate::specs::Starts::owner_of))]
fn read_owner(fields: &Forest) -> Result<u8, MapFault>
    ensures { result ≡ owner_of (trees_of fields.now) }
{
    let Some(node) = find(fields, "Owner") else {
        return Ok(NEUTRAL);
    };
    let value = node.value.as_str();
    if value == "Neutral" {
        return Ok(NEUTRAL);
    }
    match read_number(value) {
        Some(client) if client < u64::from(MAX_CLIENTS) => Ok(client as u8),
        _ => Err(MapFault::BadOwner { place: node.place }),
    }
}

/// The cell among an actor's fields, which is on a map of this size. Its fault is `BadField`.
#[tactic(auto, unfolding(crate::specs::Starts::location_of))]
fn read_location(width: u8, height: u8, actor: &Node) -> Result<CPos, MapFault>
    ensures read { result ≡ location_of width height (out-Node actor.now).place (trees_of (out-Node
        actor.now).children) }
    ensures on { IfOk result (IsOn width height) }
{
    let Some(node) = find(&actor.children, "Location") else {
        return Err(MapFault::BadField { place: actor.place });
    };
    match read_cell(node.value.as_str()) {
        Some((x, y)) if x < width && y < height => Ok(CPos { x, y }),
        _ => Err(MapFault::BadField { place: node.place }),
    }
}

/// The facing among an actor's fields. Its fault is `BadField`.
#[tactic(auto, unfolding(crate::specs::Starts::facing_of))]
fn read_facing(fields: &Forest) -> Result<WAngle, MapFault>
    ensures { result ≡ facing_of (trees_of fields.now) }
{
    let Some(node) = find(fields, "Facing") else {
        return Ok(WAngle::new(0));
    };
    match read_number(node.value.as_str()) {
        Some(units) if units < u64::from(FULL_TURN) => Ok(WAngle::new(units as u16)),
        _ => Err(MapFault::BadField { place: node.place }),
    }
}

/// The actor that a node describes, on a map of this size. Its faults are `UnknownKind`,
/// `BadOwner` and `BadField`.
#[tactic(auto, unfolding(crate::specs::Starts::start_of))]
fn read_start(rules: &Rules, width: u8, height: u8, actor: &Node) -> Result<Start, MapFault>
    ensures read { result ≡ start_of rules.now width height (out-Node actor.now).value (out-Node
        actor.now).place (trees_of (out-Node actor.now).children) }
    ensures on { IfOk result (λ start. IsOn width height start.cell) }
{
    let kind = read_kind(rules, actor)?;
    let owner = read_owner(&actor.children)?;
    let cell = read_location(width, height, actor)?;
    let facing = read_facing(&actor.children)?;
    Ok(Start {
        kind,
        owner,
        cell,
        facing,
    })
}

/// Takes a node into the actors, each on a cell of its own.
#[tactic(auto, unfolding(crate::specs::Starts::start_taken))]
fn take_start(
    rules: &Rules,
    width: u8,
    height: u8,
    crowd: &mut Crowd,
    actor: &Node,
) -> Result<(), MapFault>
    requires across { crowd.old.width ≡ width }
    requires down { crowd.old.height ≡ height }
    ensures across { OnOk result (crowd.new.width ≡ width) }
    ensures down { OnOk result (crowd.new.height ≡ height) }
    ensures taken { OnOk result (step_at (start_taken rules.now width height) crowd.old.starts
        actor.now ≡ Ok crowd.new.starts) }
    ensures fault { IfErr result (λ fault. IsMapFault fault (step_at (start_taken rules.now width
        height) crowd.old.starts actor.now)) }
{
    if crowd.len() >= MAX_ACTORS {
        return Err(MapFault::TooManyActors { place: actor.place });
    }
    let start = read_start(rules, width, height, actor)?;
    if crowd.has(start.cell) {
        return Err(MapFault::CellTaken { place: actor.place });
    }
    crowd.add(start)?;
    Ok(())
}

/// Takes all nodes below a node into the actors.
#[tactic(auto, using(crate::proofs::EachLemmas::each_steps))]
fn take_all_starts(
    rules: &Rules,
    width: u8,
    height: u8,
    crowd: &mut Crowd,
    actors: &Forest,
) -> Result<(), MapFault>
    requires across { crowd.old.width ≡ width }
    requires down { crowd.old.height ≡ height }
    ensures taken { OnOk result (each (start_taken rules.now width height) crowd.old.starts
        (trees_of
        actors.now) ≡ Ok crowd.new.starts) }
    ensures fault { IfErr result (λ fault. IsMapFault fault (each (start_taken rules.now width
        height) crowd.old.starts (trees_of actors.now))) }
{
    for actor in &actors.nodes {
        take_start(rules, width, height, crowd, actor)?;
    }
    Ok(())
}

/// The actors of a map of this size, in order. Its faults are `TooManyActors`, `UnknownKind`,
/// `BadOwner`, `BadField` and `CellTaken`.
#[tactic(auto, unfolding(crate::specs::Starts::starts_of))]
pub(crate) fn read_starts(
    alloc: Global,
    rules: &Rules,
    width: u8,
    height: u8,
    forest: &Forest,
) -> Result<StartList, MapFault>
    ensures read { IfOk result (λ starts. starts_of rules.now width height (trees_of forest.now) ≡
        Ok starts) }
    ensures fault { IfErr result (λ fault. IsMapFault fault (starts_of rules.now width height
        (trees_of forest.now))) }
{
    let mut crowd = Crowd::create(alloc, width, height)?;
    if let Some(node) = find(forest, "Actors") {
        take_all_starts(rules, width, height, &mut crowd, &node.children)?;
    }
    Ok(crowd.into_starts())
}
