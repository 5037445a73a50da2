ghost use Rattle.std.specs.Prelude.{◌≡◌};
ghost use Rattle.sync_hash.specs.Fnv.{fnv_from};
ghost use Rattle.sync_hash.specs.HashedBytes.{actor_bytes, acts_bytes, activity_bytes};
ghost use Rattle.sync_hash.specs.HashedBytes.{build_bytes, builds_bytes, cell_bytes, leg_bytes};
ghost use Rattle.sync_hash.specs.Kept.{actor_number};

use crate::fnv_state::FnvState;
use activities::{Activity, Queue};
use game_model::{Actor, Build, Builds, Leg};
use world_units::CPos;

/// The number of an actor: the FNV-1a of its bytes, its part of a world's hash. The bytes are hashed
/// field by field, as they stand in the actor.
pub fn actor_number(a: &Actor) -> u64
    ensures { result ≡ actor_number a.now }
{
    let mut state = FnvState::new();
    write_actor(&mut state, a);
    state.finish()
}

/// Goes on with the bytes of an actor.
#[tactic(auto, unfolding(crate::specs::HashedBytes::actor_bytes))]
fn write_actor(state: &mut FnvState, a: &Actor)
    ensures { state.new ≡ fnv_from state.old (actor_bytes a.now) }
{
    state.write_u32(a.id);
    state.write_u16(a.kind);
    state.write_u8(a.body.owner);
    write_cell(state, a.cell);
    state.write_u16(a.body.facing.units());
    write_leg(state, a.body.leg);
    state.write_u32(a.body.health);
    state.write_u16(a.body.load);
    state.write_u16(a.body.reload);
    write_acts(state, &a.body.acts);
    write_builds(state, &a.body.builds);
}

/// Goes on with the column and the row of a cell.
pub(crate) fn write_cell(state: &mut FnvState, p: CPos)
    ensures { state.new ≡ fnv_from state.old (cell_bytes p) }
{
    state.write(&[p.x, p.y]);
}

/// Goes on with a leg, or with none.
fn write_leg(state: &mut FnvState, leg: Option<Leg>)
    ensures { state.new ≡ fnv_from state.old (leg_bytes leg) }
{
    match leg {
        None => state.write_u8(0),
        Some(leg) => {
            state.write(&[1, leg.dir]);
            state.write_u32(leg.progress);
        }
    }
}

/// Goes on with the number of activities and each of them.
fn write_acts(state: &mut FnvState, acts: &Queue)
    ensures { state.new ≡ fnv_from state.old (acts_bytes acts.now) }
{
    state.write_u8(acts.len() as u8);
    for activity in acts.as_slice() {
        write_activity(state, activity);
    }
}

/// Goes on with an activity: its tag, and then its fields.
fn write_activity(state: &mut FnvState, activity: &Activity)
    ensures { state.new ≡ fnv_from state.old (activity_bytes activity.now) }
{
    match activity {
        Activity::Move { goal, waits } => {
            state.write_u8(1);
            write_cell(state, *goal);
            state.write_u8(*waits);
        }
        Activity::Attack { target, waits } => {
            state.write_u8(2);
            state.write_u32(*target);
            state.write_u8(*waits);
        }
        Activity::Harvest { cell, timer, waits } => {
            state.write_u8(3);
            write_cell(state, *cell);
            state.write_u16(*timer);
            state.write_u8(*waits);
        }
        Activity::Deliver { home, timer, waits } => {
            state.write_u8(4);
            write_cell(state, *home);
            state.write_u16(*timer);
            state.write_u8(*waits);
        }
    }
}

/// Goes on with the number of builds and each of them.
fn write_builds(state: &mut FnvState, builds: &Builds)
    ensures { state.new ≡ fnv_from state.old (builds_bytes builds.now) }
{
    state.write_u8(builds.len() as u8);
    for build in builds.as_slice() {
        write_build(state, build);
    }
}

/// Goes on with a build.
fn write_build(state: &mut FnvState, build: &Build)
    ensures { state.new ≡ fnv_from state.old (build_bytes build.now) }
{
    state.write_u16(build.kind);
    state.write_u16(build.left);
}
