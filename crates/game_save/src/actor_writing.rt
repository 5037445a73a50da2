ghost use Rattle.std.specs.Prelude.{◌≡◌, ◌++◌, ◌∷◌, [], OnOk};
ghost use Rattle.std.specs.List.{All};
ghost use Rattle.sync_hash.specs.FitsFields.{ActivityFits, ActorFits, BuildFits, LegFits};
ghost use Rattle.sync_hash.specs.HashedBytes.{activity_bytes, actor_bytes, acts_bytes, build_bytes};
ghost use Rattle.sync_hash.specs.HashedBytes.{builds_bytes, cell_bytes, leg_bytes};

use activities::{Activity, Queue};
use base::NoMemory;
use game_model::{Actor, Build, Builds, Leg};
use wire_bytes::{write_u16, write_u32};
use world_units::CPos;

/// Appends a byte.
pub(crate) fn append_byte(out: &mut Vec<u8>, byte: u8) -> Result<(), NoMemory>
    ensures { OnOk result (out.new.items ≡ out.old.items ++ byte ∷ []) }
{
    out.push(byte)?;
    Ok(())
}

/// Appends the column and the row of a cell.
fn append_cell(out: &mut Vec<u8>, p: CPos) -> Result<(), NoMemory>
    ensures { OnOk result (out.new.items ≡ out.old.items ++ cell_bytes p) }
{
    out.extend_from_slice(&[p.x, p.y])
}

/// Appends a leg, or none. Each number fits its field, as of all that is appended here.
fn append_leg(out: &mut Vec<u8>, leg: Option<Leg>) -> Result<(), NoMemory>
    ensures bytes { OnOk result (out.new.items ≡ out.old.items ++ leg_bytes leg) }
    ensures fits { OnOk result (LegFits leg) }
{
    match leg {
        None => append_byte(out, 0),
        Some(leg) => {
            out.extend_from_slice(&[1, leg.dir])?;
            write_u32(out, leg.progress)
        }
    }
}

/// Appends an activity: its tag, and then its fields.
fn append_activity(out: &mut Vec<u8>, activity: &Activity) -> Result<(), NoMemory>
    ensures bytes { OnOk result (out.new.items ≡ out.old.items ++ activity_bytes activity.now) }
    ensures fits { OnOk result (ActivityFits activity.now) }
{
    match activity {
        Activity::Move { goal, waits } => {
            append_byte(out, 1)?;
            append_cell(out, *goal)?;
            append_byte(out, *waits)
        }
        Activity::Attack { target, waits } => {
            append_byte(out, 2)?;
            write_u32(out, *target)?;
            append_byte(out, *waits)
        }
        Activity::Harvest { cell, timer, waits } => {
            append_byte(out, 3)?;
            append_cell(out, *cell)?;
            write_u16(out, *timer)?;
            append_byte(out, *waits)
        }
        Activity::Deliver { home, timer, waits } => {
            append_byte(out, 4)?;
            append_cell(out, *home)?;
            write_u16(out, *timer)?;
            append_byte(out, *waits)
        }
    }
}

/// Appends the number of activities and each of them.
fn append_acts(out: &mut Vec<u8>, acts: &Queue) -> Result<(), NoMemory>
    ensures bytes { OnOk result (out.new.items ≡ out.old.items ++ acts_bytes acts.now) }
    ensures fits { OnOk result (All ActivityFits acts.now) }
{
    append_byte(out, acts.len() as u8)?;
    for activity in acts.as_slice() {
        append_activity(out, activity)?;
    }
    Ok(())
}

/// Appends a build: its kind and the turns left.
fn append_build(out: &mut Vec<u8>, build: &Build) -> Result<(), NoMemory>
    ensures bytes { OnOk result (out.new.items ≡ out.old.items ++ build_bytes build.now) }
    ensures fits { OnOk result (BuildFits build.now) }
{
    write_u16(out, build.kind)?;
    write_u16(out, build.left)
}

/// Appends the number of builds and each of them.
fn append_builds(out: &mut Vec<u8>, builds: &Builds) -> Result<(), NoMemory>
    ensures bytes { OnOk result (out.new.items ≡ out.old.items ++ builds_bytes builds.now) }
    ensures fits { OnOk result (All BuildFits builds.now) }
{
    append_byte(out, builds.len() as u8)?;
    for build in builds.as_slice() {
        append_build(out, build)?;
    }
    Ok(())
}

/// Appends an actor as it is hashed.
#[tactic(auto, unfolding(sync_hash::specs::HashedBytes::actor_bytes))]
pub(crate) fn append_actor(out: &mut Vec<u8>, a: &Actor) -> Result<(), NoMemory>
    ensures bytes { OnOk result (out.new.items ≡ out.old.items ++ actor_bytes a.now) }
    ensures fits { OnOk result (ActorFits a.now) }
{
    write_u32(out, a.id)?;
    write_u16(out, a.kind)?;
    append_byte(out, a.body.owner)?;
    append_cell(out, a.cell)?;
    write_u16(out, a.body.facing.units())?;
    append_leg(out, a.body.leg)?;
    write_u32(out, a.body.health)?;
    write_u16(out, a.body.load)?;
    write_u16(out, a.body.reload)?;
    append_acts(out, &a.body.acts)?;
    append_builds(out, &a.body.builds)
}
