ghost use Rattle.std.specs.Prelude.{◌≡◌, ◌<◌, length, IfSome, Some, is_some};
ghost use Rattle.std.specs.Bool.{OnTrue};
ghost use Rattle.std.specs.Option.{option_copied};
ghost use Rattle.game_model.specs.World.{actor_of};
ghost use Rattle.game_tick.specs.Harvesting.{paid_to};
ghost use Rattle.game_tick.specs.Orders.{own_of, with_cancel, with_produce, produce_fits};
ghost use Rattle.rule_traits.specs.Rules.{cost_of};
ghost use Rattle.game_model.specs.Kinds.{kind_of, duration_in};
ghost use Rattle.production.specs.Orders.{IsDone};

use crate::give::give_builds;
use crate::needs::has_needs;
use actor_table::ActorTable;
use game_model::{Actor, Build, MAX_BUILDS, MAX_CASH, Purse};
use rule_traits::Rules;

/// The living actor of an id that this client owns. `None` exactly where there is none.
pub fn own_of(t: &ActorTable, client: u8, id: u32) -> Option<&Actor>
    ensures own { option_copied result ≡ own_of t.now.actors client id }
    ensures found { IfSome result (λ a. Some a.now ≡ actor_of t.now.actors id) }
{
    let Some(a) = t.living(id) else {
        return None;
    };
    if a.body.owner == client {
        Some(a)
    } else {
        None
    }
}

/// Whether actors of the kind have `Production`.
fn is_producer(rules: &Rules, kind: u16) -> bool
    ensures { result ≡ is_some (kind_of rules.now kind).production }
{
    match rules.get(kind) {
        Some(kind) => kind.production.is_some(),
        None => false,
    }
}

/// The price of a kind: 0 where the number is no kind's.
fn cost_of(rules: &Rules, kind: u16) -> u32
    ensures { result ≡ cost_of (kind_of rules.now kind) }
{
    match rules.get(kind) {
        Some(kind) => kind.cost(),
        None => 0,
    }
}

/// Pays an owner, up to [`MAX_CASH`]. Who is no client gets nothing.
pub fn pay(purse: &mut Purse, owner: u8, amount: u32)
    ensures { purse.new ≡ paid_to purse.old owner amount }
{
    if owner < purse.clients() {
        let cash = purse.get(owner).saturating_add(amount).min(MAX_CASH);
        purse.set(owner, cash);
    }
}

/// Whether an actor can be told to build units of a kind: its kind builds them, the client has what
/// they need and their price, and the actor has fewer than [`MAX_BUILDS`] builds.
fn produce_fits(
    t: &ActorTable,
    purse: &Purse,
    rules: &Rules,
    client: u8,
    kind: u16,
    a: &Actor,
) -> bool
    requires { client < length purse.now }
    ensures value { result ≡ produce_fits rules.now (record { actors = t.now.actors; cash = purse.now }) client kind a.now }
    ensures room { OnTrue result (length a.now.body.builds < MAX_BUILDS) }
{
    let Some(product) = rules.get(kind) else {
        return false;
    };
    let Some(buildable) = &product.buildable else {
        return false;
    };
    is_producer(rules, a.kind)
        && product.moves()
        && rules.builds(a.kind, kind)
        && has_needs(t, client, buildable.needs.as_slice())
        && a.body.builds.len() < MAX_BUILDS
        && product.cost() <= purse.get(client)
}

/// The turns that a unit of a kind takes: 0 where it can't be built.
fn duration_of(rules: &Rules, kind: u16) -> u16
    ensures { result ≡ duration_in (kind_of rules.now kind).buildable }
{
    match rules.get(kind) {
        Some(kind) => match &kind.buildable {
            Some(buildable) => buildable.duration,
            None => 0,
        },
        None => 0,
    }
}

/// The order of a client to build a unit of a kind, given to the actor of an id. The price is paid
/// and the build added last. Nothing changes where the order does not fit: the client owns the
/// actor and it lives, its kind builds the unit, the client has what the unit needs and its price,
/// and there are fewer than [`MAX_BUILDS`] builds.
pub fn produce(t: &mut ActorTable, purse: &mut Purse, rules: &Rules, client: u8, id: u32, kind: u16)
    requires { client < length purse.old }
    ensures { IsDone t.old t.new purse.new (with_produce rules.now (record { actors = t.old.actors; cash = purse.old }) client kind (own_of t.old.actors client id)) }
{
    let Some(a) = own_of(t, client, id) else {
        return;
    };
    if !produce_fits(t, purse, rules, client, kind, a) {
        return;
    }
    let mut builds = a.body.builds.copy();
    let left = duration_of(rules, kind);
    let _added = builds.try_push(Build { kind, left });
    give_builds(t, id, builds);
    let cash = purse.get(client).saturating_sub(cost_of(rules, kind));
    purse.set(client, cash);
}

/// The order of a client to take back the last build of the actor of an id. Its price is paid back,
/// up to [`MAX_CASH`]. Nothing changes where the order does not fit: the client owns the actor and
/// it lives, its kind has `Production`, and there is a build.
pub fn cancel(t: &mut ActorTable, purse: &mut Purse, rules: &Rules, client: u8, id: u32)
    ensures { IsDone t.old t.new purse.new (with_cancel rules.now (record { actors = t.old.actors; cash = purse.old }) client (own_of t.old.actors client id)) }
{
    let Some(a) = own_of(t, client, id) else {
        return;
    };
    if !is_producer(rules, a.kind) {
        return;
    }
    let mut builds = a.body.builds.copy();
    if builds.is_empty() {
        return;
    }
    let last = builds.remove(builds.len() - 1);
    give_builds(t, id, builds);
    pay(purse, client, cost_of(rules, last.kind));
}
