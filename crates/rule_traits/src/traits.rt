/// The known traits, in the order of their table.
#[derive(Clone, Copy, Debug, PartialEq, Eq)]
pub enum Trait {
    /// It has hit points.
    Health,
    /// It moves and turns.
    Mobile,
    /// It stands on its cell and blocks it.
    Building,
    /// It gathers ore.
    Harvester,
    /// It takes in ore for cash.
    Refinery,
    /// It builds kinds of certain queues.
    Production,
    /// It can be built.
    Buildable,
    /// It has a price.
    Valued,
    /// It shoots.
    Armament,
    /// It reveals the cells around it to its owner.
    RevealsShroud,
}

impl Trait {
    ghost use Rattle.std.specs.List.{find};
    ghost use Rattle.std.specs.Prelude.{◌≡◌};
    ghost use Rattle.std.specs.Str.{bytes_eq};
    ghost use Rattle.rule_traits.specs.Traits.{all_traits, name_of, trait_of};

    /// All traits, in the order of their table.
    pub const ALL: [Trait; 10] = [
        Trait::Health,
        Trait::Mobile,
        Trait::Building,
        Trait::Harvester,
        Trait::Refinery,
        Trait::Production,
        Trait::Buildable,
        Trait::Valued,
        Trait::Armament,
        Trait::RevealsShroud,
    ];

    /// A law of the list of traits: it has each of them once, in the order of their table.
    pub fn all_in_order()
        ensures { Self.ALL ≡ all_traits }
    {}

    /// The trait's name, as it stands in rule files.
    pub fn name(self) -> &'static str
        ensures { result.now ≡ name_of self }
    {
        match self {
            Trait::Health => "Health",
            Trait::Mobile => "Mobile",
            Trait::Building => "Building",
            Trait::Harvester => "Harvester",
            Trait::Refinery => "Refinery",
            Trait::Production => "Production",
            Trait::Buildable => "Buildable",
            Trait::Valued => "Valued",
            Trait::Armament => "Armament",
            Trait::RevealsShroud => "RevealsShroud",
        }
    }

    /// The trait of this name.
    fn named(name: &str) -> Option<Trait>
        ensures { result ≡ find (λ trait. bytes_eq (name_of trait) name.now) all_traits }
    {
        Trait::ALL.iter().copied().find(|t| t.name() == name)
    }

    /// The trait of a node's key: what stands before the first `@` is the trait's name.
    #[tactic(auto, unfolding(crate::specs::Traits::trait_of))]
    pub(crate) fn of_key(key: &str) -> Option<Trait>
        ensures { result ≡ trait_of key.now }
    {
        match key.split_once('@') {
            Some((name, _)) => Trait::named(name),
            None => Trait::named(key),
        }
    }
}
