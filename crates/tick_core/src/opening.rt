ghost use Rattle.std.specs.Prelude.{◌≡◌, ◌≤◌, length, IfOk};
ghost use Rattle.game_model.specs.World.{full_health_of, new_body, opening_actors, owner_in};
ghost use Rattle.game_model.specs.World.{start_of};
ghost use Rattle.game_orders.specs.declared.limits.TheConstants.{MAX_CLIENTS};
ghost use Rattle.rule_traits.specs.Rules.{kind_at};

use activities::Queue;
use base::{List, NoMemory};
use game_model::{
    Actor, ActorList, Body, Builds, Gone, MAX_ACTORS, Map, NEUTRAL, OPENING_PACE, Purse, Start,
    World,
};
use rule_traits::Rules;
use std::alloc::Global;

/// The opening world of a match: tick 0, nothing drawn, nobody departed, one turn a frame, the
/// map's cash for each client, the map's ore, and the map's actors with ids from 1 on.
#[tactic(auto, unfolding(game_model::specs::World::start_of))]
pub(crate) fn opening_world(
    alloc: Global,
    rules: &Rules,
    map: &Map,
    seed: u32,
    clients: u8,
) -> Result<World, NoMemory>
    requires least { 1 ≤ clients }
    requires most { clients ≤ MAX_CLIENTS }
    requires few { length map.now.starts ≤ MAX_ACTORS }
    ensures { IfOk result (λ world. world ≡ start_of (record { rules = rules.now; map = map.now }) seed clients) }
{
    let actors = opening_actors(alloc, rules, map.starts.as_slice(), clients)?;
    let ore = map.ore.copy()?;
    Ok(World {
        tick: 0,
        seed,
        drawn: 0,
        next_id: 1 + map.starts.len() as u32,
        pace: OPENING_PACE,
        cash: Purse::create(clients, map.cash),
        gone: Gone::create(clients, false),
        actors,
        ore,
    })
}

/// The actors of a map in its order, with ids from 1 on.
fn opening_actors(
    alloc: Global,
    rules: &Rules,
    starts: &[Start],
    clients: u8,
) -> Result<ActorList, NoMemory>
    requires { length starts.now ≤ MAX_ACTORS }
    ensures { IfOk result (λ actors. actors ≡ opening_actors rules.now clients 1 starts.now) }
{
    let mut actors = Vec::with_capacity(alloc, starts.len())?;
    let mut id = 1;
    for start in starts {
        actors.push(Actor {
            id,
            kind: start.kind,
            cell: start.cell,
            body: opening_body(rules, start, clients),
        })?;
        id += 1;
    }
    Ok(List::from_vec(actors))
}

/// The body of an actor of the map: at full health, with nothing to do.
fn opening_body(rules: &Rules, start: &Start, clients: u8) -> Body
    ensures { result ≡ new_body (owner_in clients start.now.owner) start.now.facing
        (full_health_of (kind_at rules.now start.now.kind)) }
{
    Body {
        owner: owner_in(clients, start.owner),
        facing: start.facing,
        leg: None,
        health: full_health(rules, start.kind),
        load: 0,
        reload: 0,
        acts: Queue::empty(),
        builds: Builds::empty(),
    }
}

/// Who owns an actor of the map in a match of so many clients: nobody where the match has not this
/// client.
fn owner_in(clients: u8, owner: u8) -> u8
    ensures { result ≡ owner_in clients owner }
{
    if owner < clients { owner } else { NEUTRAL }
}

/// The health with which an actor of a kind begins.
fn full_health(rules: &Rules, kind: u16) -> u32
    ensures { result ≡ full_health_of (kind_at rules.now kind) }
{
    match rules.get(kind) {
        Some(kind) => kind.hp(),
        None => 1,
    }
}
