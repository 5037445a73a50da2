ghost use Rattle.std.specs.Prelude.{◌≡◌, ◌≤◌, ◌<◌, ◌^◌, ◌+◌, [], false, length, IfOk, IsTrue};
ghost use Rattle.world_units.specs.declared.angle.TheConstants.{FULL_TURN};
ghost use Rattle.game_model.specs.Grid.{IsOn};
ghost use Rattle.game_model.specs.ValidMap.{IsOwner};
ghost use Rattle.game_model.specs.ValidWorld.{IsBodyOf, IsHealthOf};
ghost use Rattle.game_model.specs.World.{is_occupied};
ghost use Rattle.game_save.specs.Crew.{AreJoined, IsPlaced, MayJoin};
ghost use Rattle.game_save.specs.Fields.{each_after, Gives, IsWithin, Reads, range_in};
ghost use Rattle.game_save.specs.ActorReading.{actor_in, free_cell_in, id_from, is_owner};
ghost use Rattle.game_save.specs.ActorReading.{owner_in, placed_in};
ghost use Rattle.game_save.specs.ReadSave.{setup_with};

use crate::body_reading::read_body;
use crate::crew::Crew;
use crate::save_cursor::SaveCursor;
use crate::save_fault::SaveFault;
use game_model::{Actor, ActorList, Body, Map, NEUTRAL};
use rule_traits::{Kind, Rules};
use std::alloc::Global;
use world_units::{CPos, FULL_TURN, WAngle};

/// True where the owner is one of so many clients, or nobody.
fn is_owner(clients: u8, owner: u8) -> bool
    ensures value { result ≡ is_owner clients owner }
    ensures told { IsTrue result → IsOwner clients owner }
{
    owner < clients || owner == NEUTRAL
}

/// Reads the owner in a match of so many clients.
#[tactic(auto, unfolding(crate::specs::ActorReading::owner_in))]
fn read_owner(c: &mut SaveCursor<'_>, clients: u8) -> Result<u8, SaveFault>
    ensures reads { Reads (owner_in clients) c.old c.new result }
    ensures valid { IfOk result (IsOwner clients) }
{
    let at = c.place();
    let owner = c.read_u8()?;
    if !is_owner(clients, owner) {
        return Err(SaveFault::BadWorld { at });
    }
    Ok(owner)
}

/// Reads a cell of the map that none of these actors has.
#[tactic(auto, unfolding(crate::specs::ActorReading::free_cell_in))]
fn read_free_cell(c: &mut SaveCursor<'_>, map: &Map, crew: &Crew) -> Result<CPos, SaveFault>
    requires width { crew.now.width ≡ map.now.width }
    requires height { crew.now.height ≡ map.now.height }
    ensures reads { Reads (free_cell_in map.now crew.now.actors) c.old c.new result }
    ensures on { IfOk result (IsOn map.now.width map.now.height) }
    ensures free { IfOk result (λ cell. is_occupied crew.now.actors cell ≡ false) }
{
    let x = c.u8_in(0, u64::from(map.width))?;
    let at = c.place();
    let y = c.u8_in(0, u64::from(map.height))?;
    if crew.has(CPos { x, y }) {
        return Err(SaveFault::BadWorld { at });
    }
    Ok(CPos { x, y })
}

/// Reads a facing.
fn read_facing(c: &mut SaveCursor<'_>) -> Result<WAngle, SaveFault>
    ensures { Reads (range_in 2 0 FULL_TURN) c.old c.new result }
{
    let units = c.u16_in(0, u64::from(FULL_TURN))?;
    Ok(WAngle::new(units))
}

/// Reads what follows the kind: owner, cell, facing and the rest of the body.
#[tactic(auto, unfolding(crate::specs::ActorReading::placed_in))]
fn read_placed(
    c: &mut SaveCursor<'_>,
    rules: &Rules,
    map: &Map,
    clients: u8,
    kind: &Kind,
    crew: &Crew,
) -> Result<(CPos, Body), SaveFault>
    requires width { crew.now.width ≡ map.now.width }
    requires height { crew.now.height ≡ map.now.height }
    ensures reads { Reads (placed_in (setup_with rules.now map.now) clients kind.now
        crew.now.actors) c.old c.new result }
    ensures valid { IfOk result (λ placed. IsPlaced (setup_with rules.now map.now) clients kind.now
        crew.now.actors placed.0 placed.1) }
{
    let owner = read_owner(c, clients)?;
    let cell = read_free_cell(c, map, crew)?;
    let facing = read_facing(c)?;
    let body = read_body(c, rules, map, kind, owner, facing)?;
    Ok((cell, body))
}

/// Reads an id from the least on and below the next one.
fn read_id(c: &mut SaveCursor<'_>, least: u32, next_id: u32) -> Result<u32, SaveFault>
    ensures reads { Reads (range_in 4 least next_id) c.old c.new result }
    ensures within { IfOk result (IsWithin least next_id) }
{
    c.u32_in(u64::from(least), u64::from(next_id))
}

/// Reads an actor after these, with an id above theirs and below the next one.
#[tactic(auto, unfolding(crate::specs::ActorReading::actor_in))]
fn read_actor(
    c: &mut SaveCursor<'_>,
    rules: &Rules,
    map: &Map,
    clients: u8,
    next_id: u32,
    least: u32,
    crew: &Crew,
) -> Result<Actor, SaveFault>
    requires least { least ≡ id_from 1 crew.now.actors }
    requires width { crew.now.width ≡ map.now.width }
    requires height { crew.now.height ≡ map.now.height }
    ensures reads { Reads (actor_in (setup_with rules.now map.now) clients next_id
        crew.now.actors) c.old c.new result }
    ensures valid { IfOk result (MayJoin (setup_with rules.now map.now) clients next_id
        crew.now.actors) }
{
    let id = read_id(c, least, next_id)?;
    let at = c.place();
    let number = c.read_u16()?;
    let Some(kind) = rules.get(number) else {
        return Err(SaveFault::BadWorld { at });
    };
    let (cell, body) = read_placed(c, rules, map, clients, kind, crew)?;
    Ok(Actor {
        id,
        kind: number,
        cell,
        body,
    })
}

/// Reads so many actors of a match of so many clients, whose ids are below the next one.
pub(crate) fn read_each_actor(
    alloc: Global,
    c: &mut SaveCursor<'_>,
    rules: &Rules,
    map: &Map,
    clients: u8,
    next_id: u32,
    count: u32,
) -> Result<ActorList, SaveFault>
    ensures reads { Gives (each_after (actor_in (setup_with rules.now map.now) clients next_id) []
        count) c.old c.new result }
    ensures count { IfOk result (λ actors. length actors ≡ count) }
    ensures valid { IfOk result (AreJoined (setup_with rules.now map.now) clients next_id) }
{
    let mut crew = Crew::create(alloc, map.width, map.height)?;
    let mut least = 1;
    for _ in 0..count {
        let actor = read_actor(c, rules, map, clients, next_id, least, &crew)?;
        least = actor.id + 1;
        crew.add(actor)?;
    }
    Ok(crew.into_actors())
}
