ghost use Rattle.std.specs.Prelude.{◌≡◌, ◌≤◌, ◌++◌, length, IfOk, Ok, OnOk};
ghost use Rattle.std.specs.List.{All};
ghost use Rattle.game_model.specs.declared.limits.TheConstants.{MAX_ACTORS, MAX_SIDE};
ghost use Rattle.game_model.specs.ValidWorld.{IsSavedWorld};
ghost use Rattle.game_model.specs.World.{AreClients};
ghost use Rattle.sync_hash.specs.FitsFields.{ActorFits, FitsFields};
ghost use Rattle.sync_hash.specs.HashedBytes.{clients_bytes, flag_byte, header_bytes};
ghost use Rattle.game_save.specs.declared.limits.TheConstants.{MAX_SAVE_LENGTH};
ghost use Rattle.game_save.specs.Fits.{HeadFits};
ghost use Rattle.game_save.specs.ReadSave.{read_save_of, setup_with};
ghost use Rattle.game_save.specs.SaveBytes.{actors_bytes, opening_bytes, save_bytes, world_bytes};

use crate::actor_writing::{append_actor, append_byte};
use crate::lends_world::{LendsWorld, WorldParts, head_of};
use crate::limits::{MAGIC, MAX_ACTOR_LENGTH, MAX_LENGTH_BEFORE_ACTORS, VERSION};
use base::NoMemory;
use game_model::{Head, Map, World};
use rule_traits::Rules;
use std::alloc::Global;
use wire_bytes::{write_u16, write_u32, write_u64};

/// Appends what stands before the world.
#[tactic(auto, unfolding(crate::specs::SaveBytes::opening_bytes))]
fn append_opening(out: &mut Vec<u8>, number: u64, frames: u32) -> Result<(), NoMemory>
    ensures { OnOk result (out.new.items ≡ out.old.items ++ opening_bytes number frames) }
{
    write_u32(out, MAGIC)?;
    write_u16(out, VERSION)?;
    write_u64(out, number)?;
    write_u32(out, frames)
}

/// A departure flag as a byte.
fn byte_of(gone: bool) -> u8
    ensures { result ≡ flag_byte gone }
{
    u8::from(gone)
}

/// Appends bytes.
fn append_bytes(out: &mut Vec<u8>, bytes: &[u8]) -> Result<(), NoMemory>
    ensures { OnOk result (out.new.items ≡ out.old.items ++ bytes.now) }
{
    out.extend_from_slice(bytes)
}

/// Appends the cash of each client and whether it has departed.
fn append_clients(out: &mut Vec<u8>, head: &Head) -> Result<(), NoMemory>
    requires { AreClients head.now.cash head.now.gone }
    ensures { OnOk result (out.new.items ≡ out.old.items ++ clients_bytes head.now) }
{
    for client in 0..head.cash.clients() {
        write_u32(out, head.cash.get(client))?;
        append_byte(out, byte_of(head.gone.get(client)))?;
    }
    Ok(())
}

/// Appends the header of a world with so many actors, as it is hashed.
fn append_header(out: &mut Vec<u8>, head: &Head, actors: usize) -> Result<(), NoMemory>
    requires clients { AreClients head.now.cash head.now.gone }
    requires actors { actors ≤ MAX_ACTORS }
    ensures { OnOk result (out.new.items ≡ out.old.items ++ header_bytes head.now actors) }
{
    write_u32(out, head.tick)?;
    write_u32(out, head.seed)?;
    write_u64(out, head.drawn)?;
    write_u32(out, head.next_id)?;
    append_byte(out, head.pace)?;
    append_byte(out, head.cash.clients())?;
    append_clients(out, head)?;
    write_u32(out, actors as u32)?;
    Ok(())
}

/// A law of heads that code holds: each number fits its field.
fn head_fits(head: &Head)
    ensures { HeadFits head.now }
{
    // each number is read so that the proof has the range of its type
    let _tick = head.tick;
    let _seed = head.seed;
    let _drawn = head.drawn;
    let _next_id = head.next_id;
    for amount in head.cash.as_slice() {
        let _amount = *amount;
    }
}

/// Appends the actors that are lent, one after the other.
fn append_actors<W: LendsWorld>(out: &mut Vec<u8>, w: &W) -> Result<(), NoMemory>
    ensures bytes { OnOk result
        (out.new.items ≡ out.old.items ++ actors_bytes (W.world_of w.now).actors) }
    ensures fits { OnOk result (All ActorFits (W.world_of w.now).actors) }
{
    for i in 0..w.actor_count() {
        let Some(actor) = w.actor_at(i) else {
            unreachable!()
        };
        append_actor(out, actor)?;
    }
    Ok(())
}

/// Appends a world that is lent: its size, its header, its actors and the ore of each cell.
#[tactic(auto, unfolding(crate::specs::SaveBytes::world_bytes))]
fn append_world<W: LendsWorld>(out: &mut Vec<u8>, w: &W) -> Result<(), NoMemory>
    requires clients { AreClients (W.world_of w.now).cash (W.world_of w.now).gone }
    requires actors { length (W.world_of w.now).actors ≤ MAX_ACTORS }
    ensures bytes { OnOk result (out.new.items ≡ out.old.items ++ world_bytes (W.world_of w.now)) }
    ensures fits { OnOk result (FitsFields (W.world_of w.now)) }
{
    let ore = w.ore();
    append_byte(out, ore.width())?;
    append_byte(out, ore.height())?;
    let head = w.head();
    head_fits(head);
    append_header(out, head, w.actor_count())?;
    append_actors(out, w)?;
    append_bytes(out, ore.as_slice())?;
    Ok(())
}

/// The save of a valid world that is lent part by part, after so many frames, of a match under
/// these rules, which have this number, and on this map: that of [`write_save`], without a copy of
/// the world. [`crate::read_save`] reads it as that world after so many frames. Its memory is taken
/// at once. Out of memory is the only error.
#[tactic(auto, unfolding(crate::specs::SaveBytes::save_bytes))]
pub fn write_lent_save<W: LendsWorld>(
    alloc: Global,
    rules: &Rules,
    map: &Map,
    number: u64,
    frames: u32,
    w: &W,
) -> Result<Vec<u8>, NoMemory>
    requires { IsSavedWorld (setup_with rules.now map.now) frames (W.world_of w.now) }
    ensures value { IfOk result
        (λ bytes. bytes.items ≡ save_bytes number frames (W.world_of w.now)) }
    ensures again { IfOk result (λ bytes.
        read_save_of number (setup_with rules.now map.now) bytes.items
        ≡ Ok (record { frames = frames; world = W.world_of w.now })) }
    ensures most { map.now.width ≤ MAX_SIDE → map.now.height ≤ MAX_SIDE
        → IfOk result (λ bytes. length bytes.items ≤ MAX_SAVE_LENGTH) }
{
    let room = MAX_LENGTH_BEFORE_ACTORS
        + MAX_ACTOR_LENGTH * w.actor_count()
        + w.ore().as_slice().len();
    let mut out = Vec::with_capacity(alloc, room)?;
    append_opening(&mut out, number, frames)?;
    append_world(&mut out, w)?;
    Ok(out)
}

/// The save of a valid world after so many frames, of a match under these rules, which have this
/// number, and on this map. [`crate::read_save`] reads it. On a map within `game_model`'s limits it
/// has at most [`MAX_SAVE_LENGTH`](crate::MAX_SAVE_LENGTH) bytes. Out of memory is the only error.
pub fn write_save(
    alloc: Global,
    rules: &Rules,
    map: &Map,
    number: u64,
    frames: u32,
    w: &World,
) -> Result<Vec<u8>, NoMemory>
    requires { IsSavedWorld (setup_with rules.now map.now) frames w.now }
    ensures value { IfOk result (λ bytes. bytes.items ≡ save_bytes number frames w.now) }
    ensures most { map.now.width ≤ MAX_SIDE → map.now.height ≤ MAX_SIDE
        → IfOk result (λ bytes. length bytes.items ≤ MAX_SAVE_LENGTH) }
{
    let parts = WorldParts {
        head: head_of(w),
        world: w,
    };
    write_lent_save(alloc, rules, map, number, frames, &parts)
}
