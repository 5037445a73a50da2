ghost use Rattle.std.specs.Prelude.{◌≡◌, ◌≢◌, ◌≤◌, None, Some, length, IfErr, IfOk, IfSome, OnOk};
ghost use Rattle.game_orders.specs.declared.limits.TheConstants.{MAX_CLIENTS};
ghost use Rattle.c_objects.specs.declared.code.TheConstants.{NO_MEMORY, OK};
ghost use Rattle.c_worlds.specs.Worlds.{code_with, create_code, created, frame_at, game_code};
ghost use Rattle.c_worlds.specs.Worlds.{game_stepped, made_with, step_code, stepped};

use crate::held::made_of;
use c_objects::{BAD_ARGUMENT, BAD_BYTES, FULL, Kept, NO_MEMORY, OK, Object, WRONG_OBJECT};
use frame_core::{MAX_STEPS, Maker, Sim};
use game_orders::{Frame, MAX_CLIENTS};
use replay_file::{GREATEST_TAG, read_entries};
use setup_files::Made;
use std::alloc::Global;
use tick_core::Game;
use wire_bytes::Cursor;

/// The frame that the bytes spell, and nothing after it: an entry of each client, of which `gone` says
/// who has departed before.
#[tactic(auto, unfolding(crate::specs::Worlds::whole), using(replay_file::proofs::EntriesLemmas::stay_length))]
pub fn read_frame(gone: &[bool], bytes: &[u8]) -> Option<Frame>
    requires { length gone.now ≤ MAX_CLIENTS }
    ensures frame { result ≡ frame_at gone.now bytes.now }
    ensures length { IfSome result (λ frame. length frame ≡ length gone.now) }
{
    let mut cursor = Cursor::over(bytes);
    let mut frame = Frame::empty();
    let Ok(()) = read_entries(&mut cursor, GREATEST_TAG, gone, &mut frame) else {
        return None;
    };
    if cursor.rest().is_empty() {
        Some(frame)
    } else {
        None
    }
}

/// Steps a game by the frame that the bytes spell, as [`world_step`] does.
fn step_game(game: &mut Game, bytes: &[u8]) -> u32
    ensures code { result ≡ game_code game.old bytes.now }
    ensures after { game.new ≡ game_stepped game.old bytes.now }
{
    if game.step_count() >= MAX_STEPS {
        return FULL;
    }
    match read_frame(game.head().gone.as_slice(), bytes) {
        Some(frame) => {
            game.step(&frame);
            OK
        }
        None => BAD_BYTES,
    }
}

/// Steps a world by a frame: a play or a departure of each client by rising number, one after the
/// other, and a departure of each that has left. `FULL` after 536,870,911 frames, `BAD_BYTES` where
/// the bytes spell no such frame.
pub fn world_step(world: &mut Object, alloc: Global, bytes: &[u8]) -> u32
    ensures code { result ≡ step_code world.old.held.held bytes.now }
    ensures after { world.new.held.held ≡ stepped world.old.held.held bytes.now }
{
    let Some(mut kept) = world.take(alloc) else {
        return WRONG_OBJECT;
    };
    let code = match &mut *kept {
        Kept::World(game) => step_game(game, bytes),
        _ => WRONG_OBJECT,
    };
    world.put(kept);
    code
}

/// The opening world of a match of so many clients over these rules and this map, or the code for why
/// there is none.
fn make_world(alloc: Global, made: &Made, seed: u32, clients: u32) -> Result<Box<Kept>, u32>
    ensures code { IfErr result (λ code. code ≢ NO_MEMORY
        → code ≡ code_with (Some made.now) clients) }
    ensures ok { OnOk result (code_with (Some made.now) clients ≡ OK) }
    ensures made { IfOk result (λ kept. Some kept.value ≡ made_with (Some made.now) seed clients) }
    ensures refused { IfErr result (λ code. code ≢ NO_MEMORY
        → made_with (Some made.now) seed clients ≡ None) }
{
    if clients == 0 || clients > u32::from(MAX_CLIENTS) {
        return Err(BAD_ARGUMENT);
    }
    let Ok(game) = made.maker.make(alloc, seed, clients as u8) else {
        return Err(NO_MEMORY);
    };
    match Box::new(alloc, Kept::World(game)) {
        Ok(kept) => Ok(kept),
        Err(_) => Err(NO_MEMORY),
    }
}

/// Makes an empty object the opening world of a match of 1 to 16 clients over a setup that was
/// read.
pub fn world_create(
    world: &mut Object,
    setup: &mut Object,
    alloc: Global,
    seed: u32,
    clients: u32,
) -> u32
    ensures setup { setup.new.held.held ≡ setup.old.held.held }
    ensures code { result ≢ NO_MEMORY
        → result ≡ create_code world.old.held.held setup.old.held.held clients }
    ensures after { result ≢ NO_MEMORY
        → world.new.held.held ≡ created world.old.held.held setup.old.held.held seed clients }
    ensures memory { result ≡ NO_MEMORY → world.new.held.held ≡ world.old.held.held }
{
    if !world.is_empty() {
        return WRONG_OBJECT;
    }
    let Some(kept) = setup.take(alloc) else {
        return WRONG_OBJECT;
    };
    let made = match made_of(&kept) {
        Some(made) => make_world(alloc, made, seed, clients),
        None => Err(WRONG_OBJECT),
    };
    setup.put(kept);
    match made {
        Ok(kept) => {
            world.put(kept);
            OK
        }
        Err(code) => code,
    }
}
