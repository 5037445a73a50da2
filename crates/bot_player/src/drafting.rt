ghost use Rattle.std.specs.Prelude.{◌≡◌, List, [], fold};
ghost use Rattle.rule_traits.specs.declared.kind.Kind.{Kind};
ghost use Rattle.game_model.specs.Kinds.{kind_of};
ghost use Rattle.bot_player.specs.BotOrders.{harvest_order, produce_order};
ghost use Rattle.bot_player.specs.Drafts.{attack_draft, draft_for, drafts_of, own_draft, shown};
ghost use Rattle.bot_player.specs.Survey.{first_enemy};

use crate::draft::{Aim, Draft};
use crate::drafts::Drafts;
use crate::nth::nth_actor;
use crate::survey::{Enemy, Survey, is_enemy, is_own};
use game_model::Actor;
use game_orders::Order;
use rule_traits::{Kind, Rules};
use shroud::LendsActors;

/// The order to produce, if the actor can produce and has no builds: the least ready kind that it
/// builds.
fn produce_order<A: LendsActors>(
    survey: &mut Survey<'_, A>,
    kind: &Kind,
    a: &Actor,
) -> Option<Order>
    requires { kind.now ≡ kind_of survey.old.rules a.now.kind }
    ensures value { result ≡ produce_order survey.old.rules survey.old.goods survey.old.c a.now }
    ensures same { survey.new ≡ survey.old }
{
    if kind.production.is_none() || !a.body.builds.is_empty() {
        return None;
    }
    let kind = survey.least_ready(a.kind)?;
    Some(Order::Produce { actor: a.id, kind })
}

/// The order to harvest, if the actor gathers ore and has no activities.
fn harvest_order(kind: &Kind, a: &Actor) -> Option<Order>
    ensures { (rules : List Kind) → kind.now ≡ kind_of rules a.now.kind →
        result ≡ harvest_order rules a.now }
{
    if kind.moves() && kind.harvester.is_some() && a.body.acts.len() == 0 {
        Some(Order::Harvest {
            actor: a.id,
            cell: a.cell,
            queued: false,
        })
    } else {
        None
    }
}

/// The draft to attack, if the actor is armed and has no activities, and there is an enemy.
fn attack_draft<A: LendsActors>(survey: &mut Survey<'_, A>, kind: &Kind, a: &Actor) -> Option<Draft>
    requires { kind.now ≡ kind_of survey.old.rules a.now.kind }
    ensures value { result ≡ attack_draft survey.old.rules
        (first_enemy survey.old.rules survey.old.goods.actors survey.old.c) a.now }
    ensures same { survey.new ≡ survey.old }
{
    if kind.armament.is_none() || a.body.acts.len() > 0 {
        return None;
    }
    let enemy = survey.first_enemy()?;
    Some(Draft::Attack {
        actor: a.id,
        from: a.cell,
        aim: Aim::at(a.cell, enemy),
    })
}

/// The draft for an actor, if it gets an order: the first applicable case decides. An actor at work
/// whose kind does not produce gets none.
fn draft_for<A: LendsActors>(survey: &mut Survey<'_, A>, a: &Actor) -> Option<Draft>
    ensures value { result ≡ draft_for survey.old a.now }
    ensures same { survey.new ≡ survey.old }
{
    let kind = survey.rules().get(a.kind)?;
    if a.body.acts.len() > 0 && kind.production.is_none() {
        return None;
    }
    if let Some(order) = produce_order(survey, kind, a) {
        return Some(Draft::Whole(order));
    }
    if let Some(order) = harvest_order(kind, a) {
        return Some(Draft::Whole(order));
    }
    attack_draft(survey, kind, a)
}

/// The same, for the client's living actors alone.
fn own_draft<A: LendsActors>(survey: &mut Survey<'_, A>, a: &Actor) -> Option<Draft>
    ensures value { result ≡ own_draft survey.old a.now }
    ensures same { survey.new ≡ survey.old }
{
    if is_own(survey.client(), a) {
        draft_for(survey, a)
    } else {
        None
    }
}

/// Adds the first drafts for the actors, as many as a client can order, to no drafts.
pub(crate) fn draft_all<A: LendsActors>(survey: &mut Survey<'_, A>, drafts: &mut Drafts)
    requires { drafts.old ≡ [] }
    ensures { drafts.new ≡ drafts_of survey.old }
{
    let actors = survey.actors();
    for i in 0..actors.actor_count() {
        if drafts.is_full() {
            return;
        }
        drafts.add(own_draft(survey, nth_actor(actors, i)));
    }
}

/// Shows an actor to the drafts, if it is an enemy.
fn show(rules: &Rules, c: u8, drafts: &mut Drafts, x: &Actor)
    ensures { drafts.new ≡ shown rules.now c drafts.old x.now }
{
    if is_enemy(rules, c, x) {
        drafts.show(Enemy::of(x));
    }
}

/// Shows all these actors to the drafts. Where none is to attack, that changes nothing.
pub(crate) fn show_all<A: LendsActors>(rules: &Rules, c: u8, drafts: &mut Drafts, actors: &A)
    ensures { drafts.new ≡ fold (shown rules.now c) drafts.old (A.actors_of actors.now) }
{
    if !drafts.have_attack() {
        return;
    }
    for i in 0..actors.actor_count() {
        show(rules, c, drafts, nth_actor(actors, i));
    }
}
