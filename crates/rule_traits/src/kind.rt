ghost use Rattle.std.specs.Prelude.{◌≡◌};
ghost use Rattle.rule_traits.specs.Rules.{is_listed};

use crate::trait_fields::{
    Armament, Buildable, Harvester, Health, Mobile, Production, Refinery, Reveals, Valued,
};
use crate::trait_value::TraitValue;
use crate::traits::Trait;
use yaml_lines::Text;

/// Whether the name stands in the list.
fn is_listed(names: &[Text], name: &str) -> bool
    ensures { result ≡ is_listed names.now name.now }
{
    names.iter().any(|other| other.as_str() == name)
}

/// A kind of actor: its name, and the traits that it has.
#[derive(Drop)]
pub struct Kind {
    /// Its name, the key of its node.
    pub name: Text,
    /// Its hit points. `None`: it has not the trait `Health`, and 1 hit point.
    pub health: Option<Health>,
    /// How it moves. `None`: it has not the trait `Mobile`.
    pub mobile: Option<Mobile>,
    /// Whether it has the trait `Building`, which has no fields.
    pub building: bool,
    /// How it gathers ore. `None`: it has not the trait `Harvester`.
    pub harvester: Option<Harvester>,
    /// What it pays for ore. `None`: it has not the trait `Refinery`.
    pub refinery: Option<Refinery>,
    /// From which queues it builds. `None`: it has not the trait `Production`.
    pub production: Option<Production>,
    /// How it is built. `None`: it has not the trait `Buildable`.
    pub buildable: Option<Buildable>,
    /// What it costs. `None`: it has not the trait `Valued`, and costs 0.
    pub valued: Option<Valued>,
    /// How it shoots. `None`: it has not the trait `Armament`.
    pub armament: Option<Armament>,
    /// How far it sees. `None`: it has not the trait `RevealsShroud`, and reveals no cell.
    pub reveals: Option<Reveals>,
}

impl Kind {
    ghost use Rattle.std.specs.Prelude.{◌≡◌};
    ghost use Rattle.rule_traits.specs.Rules.{can_build, cost_of, hp_of, moves, produces_of};
    ghost use Rattle.rule_traits.specs.Rules.{queue_of};
    ghost use Rattle.rule_traits.specs.Traits.{has_trait};
    ghost use Rattle.rule_traits.specs.Typed.{plain_kind, with_trait};

    /// Whether it has the trait.
    pub fn has(&self, known: Trait) -> bool
        ensures { result ≡ has_trait self.now known }
    {
        match known {
            Trait::Health => self.health.is_some(),
            Trait::Mobile => self.mobile.is_some(),
            Trait::Building => self.building,
            Trait::Harvester => self.harvester.is_some(),
            Trait::Refinery => self.refinery.is_some(),
            Trait::Production => self.production.is_some(),
            Trait::Buildable => self.buildable.is_some(),
            Trait::Valued => self.valued.is_some(),
            Trait::Armament => self.armament.is_some(),
            Trait::RevealsShroud => self.reveals.is_some(),
        }
    }

    /// Whether it moves: it has `Mobile` and not `Building`.
    pub fn moves(&self) -> bool
        ensures { result ≡ moves self.now }
    {
        self.mobile.is_some() && !self.building
    }

    /// Its hit points at full health: 1 without `Health`.
    pub fn hp(&self) -> u32
        ensures { result ≡ hp_of self.now }
    {
        match &self.health {
            Some(health) => health.hp,
            None => 1,
        }
    }

    /// Its price in cash: 0 without `Valued`.
    pub fn cost(&self) -> u32
        ensures { result ≡ cost_of self.now }
    {
        match &self.valued {
            Some(valued) => valued.cost,
            None => 0,
        }
    }

    /// The names of the queues that it produces: none without `Production`.
    pub(crate) fn produces(&self) -> &[Text]
        ensures { result.now ≡ produces_of self.now }
    {
        match &self.production {
            Some(production) => production.produces.as_slice(),
            None => &[],
        }
    }

    /// The names of the queues in which it is built: none without `Buildable`.
    pub(crate) fn queue(&self) -> &[Text]
        ensures { result.now ≡ queue_of self.now }
    {
        match &self.buildable {
            Some(buildable) => buildable.queue.as_slice(),
            None => &[],
        }
    }

    /// Whether a name of the product's queues is one that this kind produces.
    #[tactic(auto, unfolding(crate::specs::Rules::can_build))]
    pub fn can_build(&self, product: &Kind) -> bool
        ensures { result ≡ can_build self.now product.now }
    {
        let produces = self.produces();
        product
            .queue()
            .iter()
            .any(|name| is_listed(produces, name.as_str()))
    }

    /// A kind without traits.
    pub(crate) fn plain(name: Text) -> Kind
        ensures { result ≡ plain_kind name }
    {
        Kind {
            name,
            health: None,
            mobile: None,
            building: false,
            harvester: None,
            refinery: None,
            production: None,
            buildable: None,
            valued: None,
            armament: None,
            reveals: None,
        }
    }

    /// Gives it a trait, in place of the one that it had.
    pub(crate) fn add(&mut self, value: TraitValue)
        ensures { self.new ≡ with_trait self.old value }
    {
        match value {
            TraitValue::Health(t) => self.health = Some(t),
            TraitValue::Mobile(t) => self.mobile = Some(t),
            TraitValue::Building => self.building = true,
            TraitValue::Harvester(t) => self.harvester = Some(t),
            TraitValue::Refinery(t) => self.refinery = Some(t),
            TraitValue::Production(t) => self.production = Some(t),
            TraitValue::Buildable(t) => self.buildable = Some(t),
            TraitValue::Valued(t) => self.valued = Some(t),
            TraitValue::Armament(t) => self.armament = Some(t),
            TraitValue::RevealsShroud(t) => self.reveals = Some(t),
        }
    }
}
