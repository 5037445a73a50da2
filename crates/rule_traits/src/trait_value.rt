use crate::fault::RuleFault;
use crate::kind_names::KindNames;
use crate::lists::{KindNumbers, NameList};
use crate::setting::{
    set_armament, set_buildable, set_harvester, set_health, set_mobile, set_production,
    set_refinery, set_reveals, set_valued,
};
use crate::table::*;
use crate::trait_fields::{
    Armament, Buildable, Costs, Harvester, Health, Mobile, Production, Refinery, Reveals, Valued,
};
use crate::traits::Trait;
use std::alloc::Global;
use yaml_lines::Node;

/// A trait with the values of its fields.
#[derive(Drop)]
pub enum TraitValue {
    /// It has hit points.
    Health(Health),
    /// It moves and turns.
    Mobile(Mobile),
    /// It stands on its cell and blocks it.
    Building,
    /// It gathers ore.
    Harvester(Harvester),
    /// It takes in ore for cash.
    Refinery(Refinery),
    /// It builds kinds of certain queues.
    Production(Production),
    /// It can be built.
    Buildable(Buildable),
    /// It has a price.
    Valued(Valued),
    /// It shoots.
    Armament(Armament),
    /// It reveals the cells around it to its owner.
    RevealsShroud(Reveals),
}

impl TraitValue {
    ghost use Rattle.std.specs.Prelude.{◌≡◌};
    ghost use Rattle.yaml_lines.specs.Trees.{trees_of};
    ghost use Rattle.rule_traits.specs.Sets.{Sets, of_node};
    ghost use Rattle.rule_traits.specs.Typed.{plain, value_with};

    /// A trait without any field.
    pub fn plain(alloc: Global, known: Trait) -> TraitValue
        ensures { result ≡ plain known }
    {
        match known {
            Trait::Health => TraitValue::Health(Health { hp: HP.default }),
            Trait::Mobile => TraitValue::Mobile(Mobile {
                speed: SPEED.default,
                turn: TURN_SPEED.default as u16,
                costs: Costs {
                    clear: CLEAR_COST.default as u8,
                    road: ROAD_COST.default as u8,
                    rough: ROUGH_COST.default as u8,
                    water: WATER_COST.default as u8,
                },
            }),
            Trait::Building => TraitValue::Building,
            Trait::Harvester => TraitValue::Harvester(Harvester {
                capacity: CAPACITY.default as u16,
                load_delay: BALE_LOAD_DELAY.default as u16,
                unload_delay: BALE_UNLOAD_DELAY.default as u16,
            }),
            Trait::Refinery => TraitValue::Refinery(Refinery {
                value: BALE_VALUE.default,
            }),
            Trait::Production => TraitValue::Production(Production {
                produces: NameList::new(alloc),
            }),
            Trait::Buildable => TraitValue::Buildable(Buildable {
                queue: NameList::new(alloc),
                duration: BUILD_DURATION.default as u16,
                needs: KindNumbers::new(alloc),
            }),
            Trait::Valued => TraitValue::Valued(Valued { cost: COST.default }),
            Trait::Armament => TraitValue::Armament(Armament {
                range: RANGE.default,
                damage: DAMAGE.default,
                spread: SPREAD.default,
                reload: RELOAD.default as u16,
            }),
            Trait::RevealsShroud => TraitValue::RevealsShroud(Reveals {
                range: REVEAL_RANGE.default,
            }),
        }
    }

    /// Reads a field. False where the trait hasn't such a field.
    pub fn set(&mut self, alloc: Global, kinds: &KindNames, node: &Node) -> Result<bool, RuleFault>
        ensures { Sets self.new (of_node (value_with (trees_of kinds.now) self.old) node.now) result }
    {
        match self {
            TraitValue::Health(t) => set_health(t, node),
            TraitValue::Mobile(t) => set_mobile(t, node),
            TraitValue::Building => Ok(false),
            TraitValue::Harvester(t) => set_harvester(t, node),
            TraitValue::Refinery(t) => set_refinery(t, node),
            TraitValue::Production(t) => set_production(alloc, t, node),
            TraitValue::Buildable(t) => set_buildable(alloc, kinds, t, node),
            TraitValue::Valued(t) => set_valued(t, node),
            TraitValue::Armament(t) => set_armament(t, node),
            TraitValue::RevealsShroud(t) => set_reveals(t, node),
        }
    }
}
