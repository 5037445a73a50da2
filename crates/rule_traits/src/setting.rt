//! Each trait's fields: one function a trait, which reads one field into it. True: the trait has a
//! field of the node's key, and its member now holds the node's value. False: it has none, and
//! stays as it was. It refuses a field whose value is not of its form (`BadValue`), one outside its
//! range (`OutOfRange`), and one that names no kind (`UnknownKindName`).

ghost use Rattle.rule_traits.specs.Values.{health_with, mobile_with, harvester_with, refinery_with};
ghost use Rattle.rule_traits.specs.Values.{production_with, buildable_with, valued_with};
ghost use Rattle.rule_traits.specs.Values.{armament_with, reveals_with};
ghost use Rattle.yaml_lines.specs.Trees.{trees_of};
ghost use Rattle.yaml_lines.specs.declared.forest.Forest.TheViews.{out-Node};
ghost use Rattle.rule_traits.specs.Sets.{Sets, of_node};

use crate::fault::RuleFault;
use crate::kind_names::KindNames;
use crate::reading::{read_field, read_kinds, read_names};
use crate::table::*;
use crate::trait_fields::{
    Armament, Buildable, Harvester, Health, Mobile, Production, Refinery, Reveals, Valued,
};
use std::alloc::Global;
use yaml_lines::Node;

/// Sets `HP` of a trait `Health`. `BadValue` where the value isn't of the field's form,
/// `OutOfRange` where it is and lies outside the field's range, as below.
#[tactic(auto, unfolding(crate::specs::Values::health_with))]
pub fn set_health(t: &mut Health, node: &Node) -> Result<bool, RuleFault>
    ensures { Sets t.new (of_node (health_with t.old) node.now) result }
{
    let value = node.value.as_str();
    match node.key.as_str() {
        "HP" => t.hp = read_field(HP, value, node.place)?,
        _ => return Ok(false),
    }
    Ok(true)
}

/// Sets the speed, the turn speed or a cost of a trait `Mobile`.
#[tactic(auto, unfolding(crate::specs::Values::mobile_with))]
pub fn set_mobile(t: &mut Mobile, node: &Node) -> Result<bool, RuleFault>
    ensures { Sets t.new (of_node (mobile_with t.old) node.now) result }
{
    let value = node.value.as_str();
    let place = node.place;
    match node.key.as_str() {
        "Speed" => t.speed = read_field(SPEED, value, place)?,
        "TurnSpeed" => t.turn = read_field(TURN_SPEED, value, place)? as u16,
        "ClearCost" => t.costs.clear = read_field(CLEAR_COST, value, place)? as u8,
        "RoadCost" => t.costs.road = read_field(ROAD_COST, value, place)? as u8,
        "RoughCost" => t.costs.rough = read_field(ROUGH_COST, value, place)? as u8,
        "WaterCost" => t.costs.water = read_field(WATER_COST, value, place)? as u8,
        _ => return Ok(false),
    }
    Ok(true)
}

/// Sets the capacity or a delay of a trait `Harvester`.
#[tactic(auto, unfolding(crate::specs::Values::harvester_with))]
pub fn set_harvester(t: &mut Harvester, node: &Node) -> Result<bool, RuleFault>
    ensures { Sets t.new (of_node (harvester_with t.old) node.now) result }
{
    let value = node.value.as_str();
    let place = node.place;
    match node.key.as_str() {
        "Capacity" => t.capacity = read_field(CAPACITY, value, place)? as u16,
        "BaleLoadDelay" => t.load_delay = read_field(BALE_LOAD_DELAY, value, place)? as u16,
        "BaleUnloadDelay" => t.unload_delay = read_field(BALE_UNLOAD_DELAY, value, place)? as u16,
        _ => return Ok(false),
    }
    Ok(true)
}

/// Sets what a bale is worth to a trait `Refinery`.
#[tactic(auto, unfolding(crate::specs::Values::refinery_with))]
pub fn set_refinery(t: &mut Refinery, node: &Node) -> Result<bool, RuleFault>
    ensures { Sets t.new (of_node (refinery_with t.old) node.now) result }
{
    let value = node.value.as_str();
    match node.key.as_str() {
        "BaleValue" => t.value = read_field(BALE_VALUE, value, node.place)?,
        _ => return Ok(false),
    }
    Ok(true)
}

/// Sets the queues of a trait `Production`: any value lists names. Only memory may fail it.
#[tactic(auto, unfolding(crate::specs::Values::production_with))]
pub fn set_production(alloc: Global, t: &mut Production, node: &Node) -> Result<bool, RuleFault>
    ensures { Sets t.new (production_with t.old (out-Node node.now).key (out-Node node.now).value)
        result }
{
    match node.key.as_str() {
        "Produces" => t.produces = read_names(alloc, &node.value)?,
        _ => return Ok(false),
    }
    Ok(true)
}

/// Sets the queues, the duration or the needs of a trait `Buildable`. `UnknownKindName` where the
/// needs name no kind of the forest; the duration fails as other numbers do.
#[tactic(auto, unfolding(crate::specs::Values::buildable_with))]
pub fn set_buildable(
    alloc: Global,
    kinds: &KindNames,
    t: &mut Buildable,
    node: &Node,
) -> Result<bool, RuleFault>
    ensures { Sets t.new (of_node (buildable_with (trees_of kinds.now) t.old) node.now) result }
{
    let value = node.value.as_str();
    let place = node.place;
    match node.key.as_str() {
        "Queue" => t.queue = read_names(alloc, &node.value)?,
        "BuildDuration" => t.duration = read_field(BUILD_DURATION, value, place)? as u16,
        "Needs" => t.needs = read_kinds(alloc, kinds, value, place)?,
        _ => return Ok(false),
    }
    Ok(true)
}

/// Sets the cost of a trait `Valued`.
#[tactic(auto, unfolding(crate::specs::Values::valued_with))]
pub fn set_valued(t: &mut Valued, node: &Node) -> Result<bool, RuleFault>
    ensures { Sets t.new (of_node (valued_with t.old) node.now) result }
{
    let value = node.value.as_str();
    match node.key.as_str() {
        "Cost" => t.cost = read_field(COST, value, node.place)?,
        _ => return Ok(false),
    }
    Ok(true)
}

/// Sets the range, the damage, the spread or the reload of a trait `Armament`.
#[tactic(auto, unfolding(crate::specs::Values::armament_with))]
pub fn set_armament(t: &mut Armament, node: &Node) -> Result<bool, RuleFault>
    ensures { Sets t.new (of_node (armament_with t.old) node.now) result }
{
    let value = node.value.as_str();
    let place = node.place;
    match node.key.as_str() {
        "Range" => t.range = read_field(RANGE, value, place)?,
        "Damage" => t.damage = read_field(DAMAGE, value, place)?,
        "Spread" => t.spread = read_field(SPREAD, value, place)?,
        "Reload" => t.reload = read_field(RELOAD, value, place)? as u16,
        _ => return Ok(false),
    }
    Ok(true)
}

/// Sets the range of a trait `RevealsShroud`.
#[tactic(auto, unfolding(crate::specs::Values::reveals_with))]
pub fn set_reveals(t: &mut Reveals, node: &Node) -> Result<bool, RuleFault>
    ensures { Sets t.new (of_node (reveals_with t.old) node.now) result }
{
    let value = node.value.as_str();
    match node.key.as_str() {
        "Range" => t.range = read_field(REVEAL_RANGE, value, node.place)?,
        _ => return Ok(false),
    }
    Ok(true)
}
