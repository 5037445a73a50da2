ghost use Rattle.std.specs.Prelude.{◌≡◌};
ghost use Rattle.std.specs.List.{list_all};
ghost use Rattle.rule_traits.specs.ValidRules.{AreValidRules};
ghost use Rattle.bot_player.specs.Products.{first_product, is_product, is_ready, AreReady};
ghost use Rattle.bot_player.specs.KindFlags.{flag_of};

use crate::kind_flags::KindFlags;
use rule_traits::{Kind, Rules};
use std::marker::Model;

/// What a client can order to be produced now.
#[derive(Drop)]
pub(crate) struct Products<'a> {
    rules: &'a Rules,
    /// The kinds of which it has what they need, and the price.
    ready: KindFlags,
    /// Kinds that were found to build none of these, so that no kind is searched twice in vain.
    barren: KindFlags,
}

impl<'a> Model for Products<'a> {
    ghost use Rattle.std.specs.Prelude.{◌≡◌, ℕ, true, None};
    ghost use Rattle.bot_player.specs.Products.{first_product, ProductState};
    ghost use Rattle.bot_player.specs.KindFlags.{flag_of};

    ghost Value = { ProductState };

    ghost view = { λ p. record { rules = p.rules.now; ready = p.ready } };

    ghost invariant = { λ p. (b : ℕ) → flag_of p.barren b ≡ true →
        first_product (record { rules = p.rules.now; ready = p.ready }) b ≡ None };
}

/// Whether all these kinds are flagged.
fn has_needs(owned: &KindFlags, needs: &[u16]) -> bool
    ensures { result ≡ list_all (flag_of owned.now) needs.now }
{
    needs.iter().all(|kind| owned.get(*kind))
}

/// Whether units of the kind can be produced by a client with so much cash, which owns actors of
/// the flagged kinds: it is a unit, and the client has what it needs and its price.
fn is_ready(owned: &KindFlags, cash: u32, product: &Kind) -> bool
    ensures { result ≡ is_ready owned.now cash product.now }
{
    let Some(buildable) = &product.buildable else {
        return false;
    };
    product.moves() && has_needs(owned, buildable.needs.as_slice()) && product.cost() <= cash
}

/// The kinds that are ready.
fn ready_products(rules: &Rules, owned: &KindFlags, cash: u32) -> KindFlags
    ensures ready { AreReady rules.now owned.now cash result }
    ensures valid { AreValidRules rules.now }
{
    let mut ready = KindFlags::none();
    for (number, product) in rules.kinds().iter().enumerate() {
        ready.set_if(number as u16, is_ready(owned, cash, product));
    }
    ready
}

impl<'a> Products<'a> {
    /// Of a client with so much cash, which owns living actors of the flagged kinds.
    pub(crate) fn of(rules: &'a Rules, owned: &KindFlags, cash: u32) -> Products<'a>
        ensures rules { result.rules ≡ rules.now }
        ensures ready { AreReady rules.now owned.now cash result.ready }
        ensures valid { AreValidRules rules.now }
    {
        Products {
            rules,
            ready: ready_products(rules, owned, cash),
            barren: KindFlags::none(),
        }
    }

    /// The rules.
    pub(crate) fn rules(&self) -> &'a Rules
        ensures { result.now ≡ self.now.rules }
    {
        let _ready = &self.ready;
        self.rules
    }

    /// Whether a kind is ready, and actors of the other kind build it.
    fn is_product(&self, builder: u16, number: u16) -> bool
        ensures { result ≡ is_product self.now builder number }
    {
        let _barren = &self.barren;
        self.ready.get(number) && self.rules.builds(builder, number)
    }

    /// The least ready kind that actors of a kind build, looked for among all kinds.
    fn search(&self, builder: u16) -> Option<u16>
        ensures { result ≡ first_product self.now builder }
    {
        for number in 0..self.rules.kinds().len() as u16 {
            if self.is_product(builder, number) {
                return Some(number);
            }
        }
        None
    }

    /// The least ready kind that actors of a kind build. `None` exactly where they build none.
    pub(crate) fn least(&mut self, builder: u16) -> Option<u16>
        ensures value { result ≡ first_product self.old builder }
        ensures same { self.new ≡ self.old }
    {
        if self.barren.get(builder) {
            return None;
        }
        let found = self.search(builder);
        self.barren.set_if(builder, found.is_none());
        found
    }
}
