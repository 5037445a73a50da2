ghost use Rattle.std.specs.Prelude.{◌≡◌, ◌<◌, is_some, length};
ghost use Rattle.game_model.specs.Kinds.{kind_of};
ghost use Rattle.bot_player.specs.BotOrders.{is_enemy, is_own};
ghost use Rattle.bot_player.specs.Products.{least_ready};
ghost use Rattle.bot_player.specs.Survey.{enemy_of, first_enemy, owned_of, AreProductsOf};

use crate::kind_flags::KindFlags;
use crate::nth::nth_actor;
use crate::products::Products;
use game_model::{Actor, NEUTRAL, Purse};
use rule_traits::Rules;
use shroud::LendsActors;
use std::marker::Model;
use world_units::CPos;

/// What of an enemy a bot looks at.
#[derive(Clone, Copy, Debug, Drop)]
pub(crate) struct Enemy {
    /// Its id.
    pub(crate) id: u32,
    /// The cell that it holds.
    pub(crate) cell: CPos,
}

/// What is looked for among all actors for a client, each when it is first asked for.
#[derive(Drop)]
pub(crate) struct Survey<'a, A: LendsActors> {
    rules: &'a Rules,
    cash: &'a Purse,
    actors: &'a A,
    c: u8,
    /// What the client can order to be produced, once it was asked for.
    products: Option<Products<'a>>,
    /// The first of its enemies, if it has one, once it was asked for.
    first: Option<Option<Enemy>>,
}

impl<'a, A: LendsActors> Model for Survey<'a, A> {
    ghost use Rattle.bot_player.specs.Survey.{FitsSight, Sight};

    ghost Value = { Sight };

    ghost view = { λ s. record {
      rules = s.rules.now;
      goods = record { actors = A.actors_of s.actors.now; cash = s.cash.now };
      c = s.c;
    } };

    ghost invariant = { λ s. FitsSight (record {
      rules = s.rules.now;
      goods = record { actors = A.actors_of s.actors.now; cash = s.cash.now };
      c = s.c;
    }) s.products s.first };
}

/// Whether the client owns the actor, and it lives.
pub(crate) fn is_own(c: u8, a: &Actor) -> bool
    ensures { result ≡ is_own c a.now }
{
    a.body.health > 0 && a.body.owner == c
}

/// Whether actors of the kind have `Health`.
fn has_health(rules: &Rules, kind: u16) -> bool
    ensures { result ≡ is_some (kind_of rules.now kind).health }
{
    match rules.get(kind) {
        Some(kind) => kind.health.is_some(),
        None => false,
    }
}

/// Whether the actor is an enemy of the client: it lives, neither the client nor nobody owns it,
/// and its kind has `Health`.
pub(crate) fn is_enemy(rules: &Rules, c: u8, x: &Actor) -> bool
    ensures { result ≡ is_enemy rules.now c x.now }
{
    let owner = x.body.owner;
    x.body.health > 0 && owner != c && owner != NEUTRAL && has_health(rules, x.kind)
}

impl Enemy {
    /// Of this actor.
    pub(crate) fn of(x: &Actor) -> Enemy
        ensures { result ≡ enemy_of x.now }
    {
        Enemy {
            id: x.id,
            cell: x.cell,
        }
    }
}

/// The first of the client's enemies, if it has one.
fn find_enemy<A: LendsActors>(rules: &Rules, c: u8, actors: &A) -> Option<Enemy>
    ensures { result ≡ first_enemy rules.now (A.actors_of actors.now) c }
{
    for i in 0..actors.actor_count() {
        let x = nth_actor(actors, i);
        if is_enemy(rules, c, x) {
            return Some(Enemy::of(x));
        }
    }
    None
}

/// Of which kinds the client owns a living actor.
fn owned_kinds<A: LendsActors>(c: u8, actors: &A) -> KindFlags
    ensures { result ≡ owned_of c (A.actors_of actors.now) }
{
    let mut owned = KindFlags::none();
    for i in 0..actors.actor_count() {
        let a = nth_actor(actors, i);
        owned.set_if(a.kind, is_own(c, a));
    }
    owned
}

/// What the client can order to be produced.
fn find_products<'a, A: LendsActors>(
    rules: &'a Rules,
    cash: &Purse,
    actors: &A,
    c: u8,
) -> Products<'a>
    requires { c < length cash.now }
    ensures { AreProductsOf (record {
      rules = rules.now;
      goods = record { actors = A.actors_of actors.now; cash = cash.now };
      c = c;
    }) result }
{
    Products::of(rules, &owned_kinds(c, actors), cash.get(c))
}

impl<'a, A: LendsActors> Survey<'a, A> {
    /// Nothing was asked for yet.
    pub(crate) fn new(rules: &'a Rules, cash: &'a Purse, actors: &'a A, c: u8) -> Survey<'a, A>
        requires { c < length cash.now }
        ensures { result ≡ record {
          rules = rules.now;
          goods = record { actors = A.actors_of actors.now; cash = cash.now };
          c = c;
        } }
    {
        Survey {
            rules,
            cash,
            actors,
            c,
            products: None,
            first: None,
        }
    }

    /// The rules.
    pub(crate) fn rules(&self) -> &'a Rules
        ensures { result.now ≡ self.now.rules }
    {
        self.rules
    }

    /// The actors.
    pub(crate) fn actors(&self) -> &'a A
        ensures { A.actors_of result.now ≡ self.now.goods.actors }
    {
        self.actors
    }

    /// The client.
    pub(crate) fn client(&self) -> u8
        ensures { result ≡ self.now.c }
    {
        self.c
    }

    /// The least kind that is ready and that actors of this kind build.
    pub(crate) fn least_ready(&mut self, builder: u16) -> Option<u16>
        ensures value { result ≡ least_ready self.old.rules self.old.goods self.old.c builder }
        ensures same { self.new ≡ self.old }
    {
        if let Some(products) = &mut self.products {
            return products.least(builder);
        }
        let mut products = find_products(self.rules, self.cash, self.actors, self.c);
        let found = products.least(builder);
        self.products = Some(products);
        found
    }

    /// The first of the client's enemies, if it has one.
    pub(crate) fn first_enemy(&mut self) -> Option<Enemy>
        ensures value { result ≡ first_enemy self.old.rules self.old.goods.actors self.old.c }
        ensures same { self.new ≡ self.old }
    {
        if let Some(first) = self.first {
            return first;
        }
        let first = find_enemy(self.rules, self.c, self.actors);
        self.first = Some(first);
        first
    }
}
