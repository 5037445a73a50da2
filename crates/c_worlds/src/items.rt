ghost use Rattle.std.specs.Prelude.{◌≡◌, ◌≤◌, ◌<◌, ◌++◌, length, drop, Some, slice_get};
ghost use Rattle.std.specs.Option.{option_copied};
ghost use Rattle.game_model.specs.World.{actor_of};
ghost use Rattle.c_worlds.specs.Held.{game_in, told_of};
ghost use Rattle.c_worlds.specs.Items.{act_item, build_item, cell_item, item_count, items_by};
ghost use Rattle.c_worlds.specs.Items.{items_of, items_told};
ghost use Rattle.c_worlds.specs.Told.{list_code, list_needed, list_out};

use crate::held::game_of;
use activities::Activity;
use c_objects::{NO_ROOM, NONE, OK, Object, WRONG_OBJECT};
use game_model::{Actor, Build};
use std::alloc::Global;
use tick_core::Game;
use world_units::CPos;

/// One thing that an actor is to do, as C reads it: 0 for each number that it has not.
#[repr(C)]
#[derive(Drop)]
pub struct CItem {
    /// 1 move, 2 attack, 3 harvest, 4 deliver, 5 build.
    pub what: u32,
    /// The column of the cell to go to.
    pub x: u32,
    /// The row of the cell to go to.
    pub y: u32,
    /// The id of the actor to attack, or the number of the kind to build.
    pub id: u32,
    /// Of a harvest or a delivery the turns so far of the bale at work, of a build those that it
    /// still takes.
    pub turns: u32,
    /// The steps in a row at which the next cell was occupied.
    pub waits: u32,
}

/// What is done at a cell.
fn at_cell(what: u32, cell: CPos, turns: u16, waits: u8) -> CItem
    ensures { result ≡ cell_item what cell turns waits }
{
    CItem {
        what,
        x: u32::from(cell.x),
        y: u32::from(cell.y),
        id: 0,
        turns: u32::from(turns),
        waits: u32::from(waits),
    }
}

/// An activity as C reads it.
fn of_act(act: &Activity) -> CItem
    ensures { result ≡ act_item act.now }
{
    match act {
        Activity::Move { goal, waits } => at_cell(1, *goal, 0, *waits),
        Activity::Attack { target, waits } => CItem {
            what: 2,
            x: 0,
            y: 0,
            id: *target,
            turns: 0,
            waits: u32::from(*waits),
        },
        Activity::Harvest { cell, timer, waits } => at_cell(3, *cell, *timer, *waits),
        Activity::Deliver { home, timer, waits } => at_cell(4, *home, *timer, *waits),
    }
}

/// A build as C reads it.
fn of_build(build: &Build) -> CItem
    ensures { result ≡ build_item build.now }
{
    CItem {
        what: 5,
        x: 0,
        y: 0,
        id: u32::from(build.kind),
        turns: u32::from(build.left),
        waits: 0,
    }
}

/// The i-th thing that an actor is to do, from 0, which is there.
fn item_at(actor: &Actor, i: usize) -> CItem
    requires { i < item_count actor.now }
    ensures { slice_get (items_of actor.now) i ≡ Some result }
{
    let acts = actor.body.acts.as_slice();
    if i >= acts.len() {
        return of_build(actor.body.builds.get(i - acts.len()));
    }
    let Some(act) = acts.get(i) else {
        unreachable!()
    };
    of_act(act)
}

/// How much an actor is to do, at most 24.
fn item_count(actor: &Actor) -> usize
    ensures value { result ≡ item_count actor.now }
    ensures most { result ≤ 24 }
{
    actor.body.acts.len() + actor.body.builds.len()
}

/// Writes all that an actor is to do to the beginning of an array.
fn write_items(actor: &Actor, out: &mut [CItem])
    requires { item_count actor.now ≤ length out.old }
    ensures { out.new ≡ items_of actor.now ++ drop (item_count actor.now) out.old }
{
    for i in 0..item_count(actor) {
        out[i] = item_at(actor, i);
    }
}

/// The same where it has room, and how much it is.
#[tactic(auto, using(crate::proofs::WriteLemmas::both_counted))]
fn items_to(actor: &Actor, out: &mut [CItem], needed: &mut usize) -> u32
    ensures code { result ≡ list_code (items_by (Some actor.now)) (length out.old) }
    ensures out { out.new ≡ list_out (items_by (Some actor.now)) out.old }
    ensures needed { needed.new ≡ list_needed (items_by (Some actor.now)) needed.old }
{
    *needed = item_count(actor);
    if item_count(actor) > out.len() {
        return NO_ROOM;
    }
    write_items(actor, out);
    OK
}

/// The actor with this id. `None` exactly where there is none.
fn actor_with(game: &Game, id: u32) -> Option<&Actor>
    ensures { option_copied result ≡ actor_of game.now.world.actors id }
{
    for i in 0..game.actor_count() {
        let Some(actor) = game.actor_at(i) else {
            unreachable!()
        };
        if actor.id == id {
            return Some(actor);
        }
    }
    None
}

/// Writes what the actor with this id is to do, as [`read_items`] does.
fn items_with(game: &Game, id: u32, out: &mut [CItem], needed: &mut usize) -> u32
    ensures code { result ≡ list_code (items_told id game.now) (length out.old) }
    ensures out { out.new ≡ list_out (items_told id game.now) out.old }
    ensures needed { needed.new ≡ list_needed (items_told id game.now) needed.old }
{
    match actor_with(game, id) {
        Some(actor) => items_to(actor, out, needed),
        None => NONE,
    }
}

/// What an actor of a world, a peer or a server is to do, and how much it is: its activities, the
/// one at work first, and then its builds. `NONE` where there is no actor with this id, `NO_ROOM`
/// where the array is too short: then only their number is written.
pub fn read_items(
    object: &mut Object,
    alloc: Global,
    id: u32,
    out: &mut [CItem],
    needed: &mut usize,
) -> u32
    ensures code { result
        ≡ list_code (told_of (game_in object.old.held.held) (items_told id)) (length out.old) }
    ensures out { out.new
        ≡ list_out (told_of (game_in object.old.held.held) (items_told id)) out.old }
    ensures needed { needed.new
        ≡ list_needed (told_of (game_in object.old.held.held) (items_told id)) needed.old }
    ensures stays { object.new.held.held ≡ object.old.held.held }
{
    let Some(kept) = object.take(alloc) else {
        return WRONG_OBJECT;
    };
    let code = match game_of(&kept) {
        Some(game) => items_with(game, id, out, needed),
        None => WRONG_OBJECT,
    };
    object.put(kept);
    code
}
