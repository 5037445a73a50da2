ghost use Rattle.std.specs.Prelude.{◌≡◌, ◌<◌, length};
ghost use Rattle.bot_player.specs.BotOrders.{bot_orders_by, bot_orders_of};
ghost use Rattle.game_model.specs.World.{clients_of};

use crate::drafting::{draft_all, show_all};
use crate::drafts::Drafts;
use crate::survey::Survey;
use game_model::{Map, Purse, World};
use game_orders::Orders;
use rule_traits::Rules;
use shroud::LendsActors;

/// What a bot that is client `c` orders in a world: `c` is below the number of clients. Each of its
/// living actors by rising id gets at most one order, the first of these that applies, and the
/// first `MAX_ORDERS` are ordered.
///
/// 1. Where its kind has `Production` and it has no builds: to produce the kind of the least number
///    of which a `Produce` fits now, if one does.
/// 2. Where its kind moves and has `Harvester`, and it has no activities: to harvest, at its own
///    cell first.
/// 3. Where its kind has `Armament` and it has no activities: to attack the nearest enemy, if there
///    is one. Enemies are the living actors of other clients, those that are gone among them, whose
///    kinds have `Health`. Of those that are equally far, the least id decides.
///
/// It takes no memory. The map is not looked at: no order depends on it.
pub fn bot_orders(rules: &Rules, _map: &Map, w: &World, c: u8) -> Orders
    requires { c < clients_of w.now }
    ensures { result ≡ bot_orders_of (record { rules = rules.now; map = _map.now }) w.now c }
{
    bot_orders_from(rules, &w.cash, w, c)
}

/// The same by the cash of each client and the actors that a game, or whatever else lends them, has
/// now. Nothing is copied.
pub fn bot_orders_from<A: LendsActors>(rules: &Rules, cash: &Purse, actors: &A, c: u8) -> Orders
    requires { c < length cash.now }
    ensures { result ≡ bot_orders_by rules.now (record { actors = A.actors_of actors.now; cash = cash.now }) c }
{
    let mut drafts = Drafts::empty();
    draft_all(&mut Survey::new(rules, cash, actors, c), &mut drafts);
    show_all(rules, c, &mut drafts, actors);
    drafts.orders()
}
