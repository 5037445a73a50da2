ghost use Rattle.std.specs.Prelude.{◌≡◌, ◌≢◌, ◌≤◌, ◌<◌, length, IfOk};
ghost use Rattle.c_objects.specs.declared.code.TheConstants.{NO_MEMORY, OK};
ghost use Rattle.c_worlds.specs.Held.{game_in, told_of};
ghost use Rattle.c_worlds.specs.Told.{one_code};
ghost use Rattle.c_matches.specs.Plays.{bot_told, play_bytes, play_out, play_with};
ghost use Rattle.c_matches.specs.declared.plays.TheConstants.{PLAY_ROOM};
ghost use Rattle.game_bots.specs.GameOrders.{game_orders};
ghost use Rattle.tick_core.specs.Game.{game_clients};

use base::NoMemory;
use bots::Bots;
use c_objects::{BAD_ARGUMENT, NO_MEMORY, OK, Object, WRONG_OBJECT};
use c_worlds::game_of;
use frame_core::Sim;
use game_bots::GameBots;
use game_orders::{Orders, orders_fit, write_orders};
use std::alloc::Global;
use tick_core::Game;
use wire_bytes::write_u8;

/// The room for a play: a byte that says so, the number of its orders, and at most 160 of them.
pub(crate) const PLAY_ROOM: usize = 164;

/// The play of a client for a frame, as C holds it.
#[repr(C)]
#[derive(Drop)]
pub struct CPlay {
    /// How many bytes it has.
    pub len: u32,
    /// Its bytes, and behind them whatever stood there.
    pub bytes: [u8; 164],
}

/// The bytes of a play.
#[tactic(auto, using(crate::proofs::PacketLemmas::short_play))]
fn spell_play(alloc: Global, orders: &Orders) -> Result<Vec<u8>, NoMemory>
    ensures bytes { IfOk result (λ bytes. bytes.items ≡ play_bytes orders.now) }
    ensures short { IfOk result (λ bytes. length bytes.items ≤ PLAY_ROOM) }
{
    let mut bytes = Vec::new(alloc);
    write_u8(&mut bytes, 1)?;
    write_orders(&mut bytes, orders)?;
    orders_fit(orders);
    Ok(bytes)
}

/// Writes the bytes of a play.
fn put_play(bytes: &[u8], out: &mut CPlay)
    requires { length bytes.now ≤ PLAY_ROOM }
    ensures { out.new ≡ play_with bytes.now out.old }
{
    out.len = bytes.len() as u32;
    out.bytes[..bytes.len()].copy_from_slice(bytes);
}

/// Writes a play.
fn give_play(alloc: Global, orders: &Orders, out: &mut CPlay) -> u32
    ensures code { result ≢ NO_MEMORY → result ≡ OK }
    ensures out { result ≢ NO_MEMORY → out.new ≡ play_with (play_bytes orders.now) out.old }
    ensures memory { result ≡ NO_MEMORY → out.new ≡ out.old }
{
    match spell_play(alloc, orders) {
        Ok(bytes) => {
            put_play(&bytes, out);
            OK
        }
        Err(_) => NO_MEMORY,
    }
}

/// What a bot that is this client of the game orders.
fn orders_of(game: &Game, client: u8) -> Result<Orders, NoMemory>
    requires { client < game_clients game.now }
    ensures { IfOk result (λ orders. orders ≡ game_orders game.now client) }
{
    GameBots.orders(game, client)
}

/// Writes what a bot plays, as [`bot`] does.
fn play_to(game: &Game, alloc: Global, client: u32, out: &mut CPlay) -> u32
    ensures code { result ≢ NO_MEMORY → result ≡ one_code (bot_told client game.now) }
    ensures out { result ≢ NO_MEMORY → out.new ≡ play_out (bot_told client game.now) out.old }
    ensures memory { result ≡ NO_MEMORY → out.new ≡ out.old }
{
    if client >= u32::from(game.clients()) {
        return BAD_ARGUMENT;
    }
    match orders_of(game, client as u8) {
        Ok(orders) => give_play(alloc, &orders, out),
        Err(_) => NO_MEMORY,
    }
}

/// Writes the play that a bot would make now that is this client, by the world of a world, a peer or
/// a server alone: whoever has the same world gets the same play. `BAD_ARGUMENT` where the match has
/// no such client.
pub fn bot(object: &mut Object, alloc: Global, client: u32, out: &mut CPlay) -> u32
    ensures code { result ≢ NO_MEMORY
        → result ≡ one_code (told_of (game_in object.old.held.held) (bot_told client)) }
    ensures out { result ≢ NO_MEMORY
        → out.new ≡ play_out (told_of (game_in object.old.held.held) (bot_told client)) out.old }
    ensures memory { result ≡ NO_MEMORY → out.new ≡ out.old }
    ensures stays { object.new.held.held ≡ object.old.held.held }
{
    let Some(kept) = object.take(alloc) else {
        return WRONG_OBJECT;
    };
    let code = match game_of(&kept) {
        Some(game) => play_to(game, alloc, client, out),
        None => WRONG_OBJECT,
    };
    object.put(kept);
    code
}
