ghost use Rattle.std.specs.Prelude.{◌≡◌, ◌&&◌, [], is_some};
ghost use Rattle.std.specs.Option.{option_copied};
ghost use Rattle.game_model.specs.ActorChanges.{changed_at};
ghost use Rattle.game_model.specs.World.{living_of};
ghost use Rattle.game_tick.specs.Acts.{acts_after, with_acts};
ghost use Rattle.game_model.specs.Grid.{is_on};
ghost use Rattle.game_orders.specs.declared.order.Order.TheVariants.{Attack, Harvest, Move, Stop};
ghost use Rattle.game_tick.specs.Orders.{after_order, attacking, changed_if, harvesting, is_target};
ghost use Rattle.game_tick.specs.Orders.{moving, own_of, stopping, told};
ghost use Rattle.rule_traits.specs.Rules.{moves};
ghost use Rattle.game_model.specs.Kinds.{gathers, kind_of};
ghost use Rattle.tick_core.specs.Ordered.{IsReady};

use crate::scene::Scene;
use activities::{Activity, Queue};
use actor_table::ActorTable;
use game_model::{Actor, Map};
use production::own_of;
use rule_traits::Rules;
use world_units::CPos;

/// Gives a queue an activity: in place of all, or, where it is queued, after them. It is dropped
/// where the queue is full.
fn add(acts: &mut Queue, queued: bool, activity: Activity)
    ensures { acts.new ≡ acts_after queued activity acts.old }
{
    if queued {
        let _added = acts.append(activity);
    } else {
        acts.replace(activity);
    }
}

/// Gives the actor of an id, if it is there, an activity.
fn give_activity(t: &mut ActorTable, id: u32, queued: bool, activity: Activity)
    ensures { t.new ≡ record t.old { actors = changed_at t.old.actors id (told queued activity) } }
{
    let _ids_rise = t.len();
    let Some(a) = t.get(id) else {
        return;
    };
    let mut body = a.body.copy();
    add(&mut body.acts, queued, activity);
    t.swap_body(id, &mut body);
}

/// Takes all activities of the actor of an id, if it is there, away.
fn clear(t: &mut ActorTable, id: u32)
    ensures { t.new ≡ record t.old { actors = changed_at t.old.actors id (with_acts []) } }
{
    let _ids_rise = t.len();
    let Some(a) = t.get(id) else {
        return;
    };
    let mut body = a.body.copy();
    body.acts.clear();
    t.swap_body(id, &mut body);
}

/// Whether actors of the kind move.
fn moves(rules: &Rules, kind: u16) -> bool
    ensures { result ≡ moves (kind_of rules.now kind) }
{
    match rules.get(kind) {
        Some(kind) => kind.moves(),
        None => false,
    }
}

/// Whether actors of the kind gather ore.
fn gathers(rules: &Rules, kind: u16) -> bool
    ensures { result ≡ gathers (kind_of rules.now kind) }
{
    match rules.get(kind) {
        Some(kind) => kind.moves() && kind.harvester.is_some(),
        None => false,
    }
}

/// Whether actors of the kind shoot.
fn is_armed(rules: &Rules, kind: u16) -> bool
    ensures { result ≡ is_some (kind_of rules.now kind).armament }
{
    match rules.get(kind) {
        Some(kind) => kind.armament.is_some(),
        None => false,
    }
}

/// Whether actors of the kind have hit points.
fn has_health(rules: &Rules, kind: u16) -> bool
    ensures { result ≡ is_some (kind_of rules.now kind).health }
{
    match rules.get(kind) {
        Some(kind) => kind.health.is_some(),
        None => false,
    }
}

/// Whether an actor can attack the actor of an id: it is another one that lives, and its kind has
/// `Health`.
fn is_target(t: &ActorTable, rules: &Rules, a: &Actor, target: u32) -> bool
    ensures { result ≡ is_target rules.now a.now (living_of t.now.actors target) }
{
    match t.living(target) {
        Some(other) => other.id != a.id && has_health(rules, other.kind),
        None => false,
    }
}

/// Whether a cell is on the map.
fn is_on(map: &Map, cell: CPos) -> bool
    ensures { result ≡ is_on map.now.width map.now.height cell }
{
    cell.x < map.width && cell.y < map.height
}

/// Whether an order to move to a cell fits actors of a kind.
fn move_fits(rules: &Rules, map: &Map, kind: u16, cell: CPos) -> bool
    ensures { result ≡ (moves (kind_of rules.now kind) && is_on map.now.width map.now.height cell) }
{
    moves(rules, kind) && is_on(map, cell)
}

/// Whether an order to harvest a cell fits actors of a kind.
fn harvest_fits(rules: &Rules, map: &Map, kind: u16, cell: CPos) -> bool
    ensures { result ≡ (gathers (kind_of rules.now kind) && is_on map.now.width map.now.height cell) }
{
    gathers(rules, kind) && is_on(map, cell)
}

/// Whether an order to attack the actor of an id fits an actor.
fn attack_fits(t: &ActorTable, rules: &Rules, a: &Actor, target: u32) -> bool
    ensures { result ≡ (is_some (kind_of rules.now a.now.kind).armament && is_target rules.now a.now
        (living_of t.now.actors target)) }
{
    is_armed(rules, a.kind) && is_target(t, rules, a, target)
}

/// A client's order to move to a cell, given to the actor of an id.
fn order_move(
    t: &mut ActorTable,
    rules: &Rules,
    map: &Map,
    client: u8,
    id: u32,
    cell: CPos,
    queued: bool,
)
    ensures { t.new ≡ record t.old { actors = changed_if rules.now t.old.actors (moving (record { rules = rules.now; map = map.now }) cell queued) (own_of t.old.actors client id) } }
{
    let Some(a) = own_of(t, client, id) else {
        return;
    };
    if move_fits(rules, map, a.kind, cell) {
        let activity = Activity::Move {
            goal: cell,
            waits: 0,
        };
        give_activity(t, id, queued, activity);
    }
}

/// A client's order to harvest a cell, given to the actor of an id.
fn order_harvest(
    t: &mut ActorTable,
    rules: &Rules,
    map: &Map,
    client: u8,
    id: u32,
    cell: CPos,
    queued: bool,
)
    ensures { t.new ≡ record t.old { actors = changed_if rules.now t.old.actors (harvesting (record { rules = rules.now; map = map.now }) cell queued) (own_of t.old.actors client id) } }
{
    let Some(a) = own_of(t, client, id) else {
        return;
    };
    if harvest_fits(rules, map, a.kind, cell) {
        let activity = Activity::Harvest {
            cell,
            timer: 0,
            waits: 0,
        };
        give_activity(t, id, queued, activity);
    }
}

/// A client's order to attack the actor `target`, given to the actor of an id.
fn order_attack(
    t: &mut ActorTable,
    rules: &Rules,
    map: &Map,
    client: u8,
    id: u32,
    target: u32,
    queued: bool,
)
    ensures { t.new ≡ record t.old { actors = changed_if rules.now t.old.actors (attacking (record { rules = rules.now; map = map.now }) t.old.actors target queued) (own_of t.old.actors client id) } }
{
    let _ = map;
    let Some(a) = own_of(t, client, id) else {
        return;
    };
    if attack_fits(t, rules, a, target) {
        let activity = Activity::Attack { target, waits: 0 };
        give_activity(t, id, queued, activity);
    }
}

/// A client's order to do nothing more, given to the actor of an id.
fn order_stop(t: &mut ActorTable, rules: &Rules, client: u8, id: u32)
    ensures { t.new ≡ record t.old {
      actors = changed_if rules.now t.old.actors stopping
          (own_of t.old.actors client id);
    } }
{
    let _ = rules;
    let Some(_) = own_of(t, client, id) else {
        return;
    };
    clear(t, id);
}

impl Scene {
    /// A client's order to move to a cell, given to the actor of an id.
    pub(crate) fn order_move(&mut self, client: u8, id: u32, cell: CPos, queued: bool)
        requires ready { IsReady self.old.setup self.old.world self.old.world }
        ensures { self.new ≡ (record self.old {
          world = after_order self.old.setup self.old.world
              client (Move id cell queued);
        }) }
    {
        order_move(
            &mut self.table,
            &self.rules,
            &self.map,
            client,
            id,
            cell,
            queued,
        );
    }

    /// A client's order to attack the actor `target`, given to the actor of an id.
    pub(crate) fn order_attack(&mut self, client: u8, id: u32, target: u32, queued: bool)
        requires ready { IsReady self.old.setup self.old.world self.old.world }
        ensures { self.new ≡ (record self.old {
          world = after_order self.old.setup self.old.world
              client (Attack id target queued);
        }) }
    {
        order_attack(
            &mut self.table,
            &self.rules,
            &self.map,
            client,
            id,
            target,
            queued,
        );
    }

    /// A client's order to harvest a cell, given to the actor of an id.
    pub(crate) fn order_harvest(&mut self, client: u8, id: u32, cell: CPos, queued: bool)
        requires ready { IsReady self.old.setup self.old.world self.old.world }
        ensures { self.new ≡ (record self.old {
          world = after_order self.old.setup self.old.world
              client (Harvest id cell queued);
        }) }
    {
        order_harvest(
            &mut self.table,
            &self.rules,
            &self.map,
            client,
            id,
            cell,
            queued,
        );
    }

    /// A client's order to do nothing more, given to the actor of an id.
    pub(crate) fn order_stop(&mut self, client: u8, id: u32)
        requires ready { IsReady self.old.setup self.old.world self.old.world }
        ensures { self.new ≡ (record self.old {
          world = after_order self.old.setup self.old.world
              client (Stop id);
        }) }
    {
        order_stop(&mut self.table, &self.rules, client, id);
    }
}
