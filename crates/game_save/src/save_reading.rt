ghost use Rattle.std.specs.Prelude.{◌≡◌, ◌≤◌, length, IfOk};
ghost use Rattle.game_orders.specs.declared.limits.TheConstants.{MAX_FRAMES};
ghost use Rattle.game_model.specs.declared.limits.TheConstants.{MAX_ACTORS};
ghost use Rattle.game_model.specs.ValidWorld.{IsSavedWorld, IsValidWorld};
ghost use Rattle.game_save.specs.Crew.{AreJoined};
ghost use Rattle.game_save.specs.Fields.{Gives, Reads};
ghost use Rattle.game_save.specs.ReadSave.{ReturnsSave, magic_in, opening_in, read_save_of};
ghost use Rattle.game_save.specs.ReadSave.{setup_with, version_in};
ghost use Rattle.game_save.specs.WorldReading.{actors_in, size_in, world_in};

use crate::actor_reading::read_each_actor;
use crate::head_reading::read_head;
use crate::limits::{MAGIC, VERSION};
use crate::ore_reading::read_ore;
use crate::save_cursor::SaveCursor;
use crate::save_fault::SaveFault;
use crate::saved::Saved;
use game_model::{ActorList, Head, MAX_ACTORS, Map, World};
use game_orders::MAX_FRAMES;
use rule_traits::Rules;
use std::alloc::Global;

/// Reads the first four bytes.
#[tactic(auto, unfolding(crate::specs::ReadSave::magic_in))]
fn read_magic(c: &mut SaveCursor<'_>) -> Result<u32, SaveFault>
    ensures { Reads magic_in c.old c.new result }
{
    let Ok(start) = c.read_u32() else {
        return Err(SaveFault::BadMagic);
    };
    if start != MAGIC {
        return Err(SaveFault::BadMagic);
    }
    Ok(start)
}

/// Reads the version.
#[tactic(auto, unfolding(crate::specs::ReadSave::version_in))]
fn read_version(c: &mut SaveCursor<'_>) -> Result<u16, SaveFault>
    ensures { Reads version_in c.old c.new result }
{
    let version = c.read_u16()?;
    if version != VERSION {
        return Err(SaveFault::BadVersion);
    }
    Ok(version)
}

/// Reads what stands before the world, with the given rules number. The answer is the
/// number of frames.
#[tactic(auto, unfolding(crate::specs::ReadSave::opening_in))]
fn read_opening(c: &mut SaveCursor<'_>, here: u64) -> Result<u32, SaveFault>
    ensures reads { Reads (opening_in here) c.old c.new result }
    ensures most { IfOk result (λ frames. frames ≤ MAX_FRAMES) }
{
    read_magic(c)?;
    read_version(c)?;
    let rules = c.read_u64()?;
    if rules != here {
        return Err(SaveFault::OtherRules { file: rules, here });
    }
    c.u32_in(0, u64::from(MAX_FRAMES) + 1)
}

/// Reads the size of the ore, which is to be that of the map. The answer is the height.
#[tactic(auto, unfolding(crate::specs::WorldReading::size_in))]
fn read_size(c: &mut SaveCursor<'_>, map: &Map) -> Result<u8, SaveFault>
    ensures { Reads (size_in map.now) c.old c.new result }
{
    let width = u64::from(map.width);
    let height = u64::from(map.height);
    c.u8_in(width, width + 1)?;
    c.u8_in(height, height + 1)
}

/// Reads the actors of a world with this head: how many, and each.
#[tactic(auto, unfolding(crate::specs::WorldReading::actors_in))]
fn read_actors(
    alloc: Global,
    c: &mut SaveCursor<'_>,
    rules: &Rules,
    map: &Map,
    head: &Head,
) -> Result<ActorList, SaveFault>
    ensures reads { Gives (actors_in (setup_with rules.now map.now) head.now) c.old c.new result }
    ensures count { IfOk result (λ actors. length actors ≤ MAX_ACTORS) }
    ensures valid { IfOk result (AreJoined (setup_with rules.now map.now) (length head.now.cash)
        head.now.next_id) }
{
    let count = c.u32_in(0, MAX_ACTORS as u64 + 1)?;
    read_each_actor(
        alloc,
        c,
        rules,
        map,
        head.cash.clients(),
        head.next_id,
        count,
    )
}

/// Reads a world after so many frames.
#[tactic(auto, unfolding(crate::specs::WorldReading::world_in))]
fn read_world(
    alloc: Global,
    c: &mut SaveCursor<'_>,
    rules: &Rules,
    map: &Map,
    frames: u32,
) -> Result<World, SaveFault>
    ensures reads { Gives (world_in (setup_with rules.now map.now) frames) c.old c.new result }
    ensures valid { IfOk result (IsValidWorld (setup_with rules.now map.now) frames) }
{
    read_size(c, map)?;
    let head = read_head(c, frames)?;
    let actors = read_actors(alloc, c, rules, map, &head)?;
    let ore = read_ore(alloc, c, map.width, map.height)?;
    Ok(head.world_with(actors, ore))
}

/// The saved world that these bytes spell, of a match under these rules and on this map, whose
/// rules number is `here`. It is a valid world after the saved frames.
///
/// The first fault from the left is the answer, with its place. `BadMagic`, where the first four
/// bytes aren't there or aren't `LSSV`; `Torn` at 4, where the version isn't whole; `BadVersion`;
/// `Torn` at 6, where the rules number isn't whole; `OtherRules`. Then field by field, at the
/// field's place: `Torn`, where it runs past the end; `BadWorld`, where no valid world has its
/// value with the fields before it. The second of two actors on one cell is refused at its row, an
/// activity that the kind can't have at its tag, builds of a kind without Production at their
/// number, an id that doesn't rise or isn't below the next one at the id. Last `TrailingBytes`, at
/// the first byte after the last field. Out of memory may take the place of any answer.
#[tactic(auto, unfolding(crate::specs::ReadSave::read_save_of))]
pub fn read_save(
    alloc: Global,
    bytes: &[u8],
    here: u64,
    rules: &Rules,
    map: &Map,
) -> Result<Saved, SaveFault>
    ensures value { ReturnsSave result
        (read_save_of here (setup_with rules.now map.now) bytes.now) }
    ensures valid { IfOk result (λ saved. IsSavedWorld (setup_with rules.now map.now) saved.frames
        saved.world) }
{
    let mut c = SaveCursor::over(bytes);
    let frames = read_opening(&mut c, here)?;
    let world = read_world(alloc, &mut c, rules, map, frames)?;
    if c.has_more() {
        return Err(SaveFault::TrailingBytes { at: c.place() });
    }
    Ok(Saved { frames, world })
}
