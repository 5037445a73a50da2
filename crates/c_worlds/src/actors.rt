ghost use Rattle.std.specs.Prelude.{◌≡◌, ◌≤◌, ◌++◌, length, map, drop, Some};
ghost use Rattle.c_worlds.specs.Actors.{c_actor_of, dir_of, progress_of, doing_of, actors_told};
ghost use Rattle.c_worlds.specs.Held.{game_in, told_of};
ghost use Rattle.c_worlds.specs.Told.{list_code, list_needed, list_out};

use crate::held::game_of;
use activities::{Activity, Queue};
use c_objects::{NO_ROOM, OK, Object, WRONG_OBJECT};
use game_model::{Actor, Leg};
use std::alloc::Global;
use tick_core::Game;

/// The direction of an actor that is on no leg.
pub const NO_DIRECTION: u32 = 8;

/// An actor, as C reads it.
#[repr(C)]
#[derive(Drop)]
pub struct CActor {
    /// Its id, at least 1.
    pub id: u32,
    /// The number of its kind, from 0.
    pub kind: u32,
    /// The client that owns it, or 255 where it is neutral.
    pub owner: u32,
    /// The column of its cell: on a leg that of the leg's end.
    pub x: u32,
    /// The row of its cell.
    pub y: u32,
    /// Which way it faces, in 1,024ths of a turn.
    pub facing: u32,
    /// The direction of its leg, 0 to 7, or 8 where it is on none.
    pub dir: u32,
    /// The units of its leg that lie behind it, 0 where it is on none.
    pub progress: u32,
    /// Its hit points.
    pub health: u32,
    /// The bales that it holds.
    pub load: u32,
    /// The turns until it may shoot again.
    pub reload: u32,
    /// How many activities it has.
    pub acts: u32,
    /// The first of them: 1 move, 2 attack, 3 harvest, 4 deliver, or 0 where it has none.
    pub doing: u32,
    /// How many builds it has.
    pub builds: u32,
}

/// The direction of a leg, or [`NO_DIRECTION`].
fn dir(leg: Option<Leg>) -> u32
    ensures { result ≡ dir_of leg }
{
    match leg {
        Some(leg) => u32::from(leg.dir),
        None => NO_DIRECTION,
    }
}

/// The units of a leg that lie behind, or 0 without a leg.
fn progress(leg: Option<Leg>) -> u32
    ensures { result ≡ progress_of leg }
{
    match leg {
        Some(leg) => leg.progress,
        None => 0,
    }
}

/// The number of the first activity, or 0 where there is none.
fn doing(acts: &Queue) -> u32
    ensures { result ≡ doing_of acts.now }
{
    match acts.as_slice().first() {
        None => 0,
        Some(Activity::Move { .. }) => 1,
        Some(Activity::Attack { .. }) => 2,
        Some(Activity::Harvest { .. }) => 3,
        Some(Activity::Deliver { .. }) => 4,
    }
}

/// An actor as C reads it.
fn c_actor(a: &Actor) -> CActor
    ensures { result ≡ c_actor_of a.now }
{
    CActor {
        id: a.id,
        kind: u32::from(a.kind),
        owner: u32::from(a.body.owner),
        x: u32::from(a.cell.x),
        y: u32::from(a.cell.y),
        facing: u32::from(a.body.facing.units()),
        dir: dir(a.body.leg),
        progress: progress(a.body.leg),
        health: a.body.health,
        load: u32::from(a.body.load),
        reload: u32::from(a.body.reload),
        acts: a.body.acts.len() as u32,
        doing: doing(&a.body.acts),
        builds: a.body.builds.len() as u32,
    }
}

/// Writes all actors by rising id to the beginning of an array.
fn write_actors(game: &Game, out: &mut [CActor])
    requires { length game.now.world.actors ≤ length out.old }
    ensures { out.new ≡ map c_actor_of game.now.world.actors
        ++ drop (length game.now.world.actors) out.old }
{
    for i in 0..game.actor_count() {
        let Some(actor) = game.actor_at(i) else {
            unreachable!()
        };
        out[i] = c_actor(actor);
    }
}

/// The same where they have room, and how many they are.
#[tactic(auto, using(crate::proofs::WriteLemmas::counted))]
fn actors_to(game: &Game, out: &mut [CActor], needed: &mut usize) -> u32
    ensures code { result ≡ list_code (actors_told game.now) (length out.old) }
    ensures out { out.new ≡ list_out (actors_told game.now) out.old }
    ensures needed { needed.new ≡ list_needed (actors_told game.now) needed.old }
{
    *needed = game.actor_count();
    if game.actor_count() > out.len() {
        return NO_ROOM;
    }
    write_actors(game, out);
    OK
}

/// The actors of a world, a peer or a server by rising id, and how many they are. `NO_ROOM` where
/// the array is too short: then only their number is written.
pub fn read_actors(
    object: &mut Object,
    alloc: Global,
    out: &mut [CActor],
    needed: &mut usize,
) -> u32
    ensures code { result
        ≡ list_code (told_of (game_in object.old.held.held) actors_told) (length out.old) }
    ensures out { out.new
        ≡ list_out (told_of (game_in object.old.held.held) actors_told) out.old }
    ensures needed { needed.new
        ≡ list_needed (told_of (game_in object.old.held.held) actors_told) needed.old }
    ensures stays { object.new.held.held ≡ object.old.held.held }
{
    let Some(kept) = object.take(alloc) else {
        return WRONG_OBJECT;
    };
    let code = match game_of(&kept) {
        Some(game) => actors_to(game, out, needed),
        None => WRONG_OBJECT,
    };
    object.put(kept);
    code
}
