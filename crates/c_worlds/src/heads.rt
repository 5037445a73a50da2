ghost use Rattle.std.specs.Prelude.{◌≡◌, ◌≤◌, ◌++◌, length, map, drop, replicate};
ghost use Rattle.game_orders.specs.Order.{flag_number};
ghost use Rattle.c_worlds.specs.Heads.{head_of, head_told, padded};
ghost use Rattle.c_worlds.specs.Held.{game_in, told_of};
ghost use Rattle.c_worlds.specs.Told.{one_code, one_out};

use crate::held::game_of;
use c_objects::{OK, Object, WRONG_OBJECT};
use frame_core::Sim;
use std::alloc::Global;
use tick_core::Game;

/// All of a world but its actors and its ore, as C reads it.
#[repr(C)]
#[derive(Drop)]
pub struct CHead {
    /// The world's hash.
    pub hash: u64,
    /// The random words that were drawn so far.
    pub drawn: u64,
    /// The frames so far.
    pub frames: u32,
    /// The turns so far.
    pub turns: u32,
    /// The seed of the match.
    pub seed: u32,
    /// The id that the next new actor gets.
    pub next_id: u32,
    /// How many turns a frame runs.
    pub pace: u32,
    /// The number of clients, 1 to 16.
    pub clients: u32,
    /// The number of actors.
    pub actors: u32,
    /// The columns of the map.
    pub width: u32,
    /// The rows of the map.
    pub height: u32,
    /// The cash of each client, and 0 behind them.
    pub cash: [u32; 16],
    /// 1 for each client that has left, and else 0.
    pub gone: [u32; 16],
}

fn cash_of(cash: &[u32]) -> [u32; 16]
    requires { length cash.now ≤ 16 }
    ensures { result ≡ padded cash.now }
{
    let mut out = [0; 16];
    out[..cash.len()].copy_from_slice(cash);
    out
}

fn gone_of(gone: &[bool]) -> [u32; 16]
    requires { length gone.now ≤ 16 }
    ensures { result ≡ padded (map flag_number gone.now) }
{
    let mut out = [0; 16];
    for i in 0..gone.len() {
        out[i] = u32::from(gone[i]);
    }
    out
}

fn c_head(game: &Game) -> CHead
    ensures { result ≡ head_of game.now }
{
    let head = game.head();
    CHead {
        hash: game.hash(),
        drawn: head.drawn,
        frames: game.step_count(),
        turns: head.tick,
        seed: head.seed,
        next_id: head.next_id,
        pace: u32::from(head.pace),
        clients: u32::from(head.cash.clients()),
        actors: game.summary().actors,
        width: u32::from(game.map().width),
        height: u32::from(game.map().height),
        cash: cash_of(head.cash.as_slice()),
        gone: gone_of(head.gone.as_slice()),
    }
}

/// The head of the world of a world, a peer or a server.
pub fn read_head(object: &mut Object, alloc: Global, out: &mut CHead) -> u32
    ensures code { result ≡ one_code (told_of (game_in object.old.held.held) head_told) }
    ensures out { out.new ≡ one_out (told_of (game_in object.old.held.held) head_told) out.old }
    ensures stays { object.new.held.held ≡ object.old.held.held }
{
    let Some(kept) = object.take(alloc) else {
        return WRONG_OBJECT;
    };
    let code = match game_of(&kept) {
        Some(game) => {
            *out = c_head(game);
            OK
        }
        None => WRONG_OBJECT,
    };
    object.put(kept);
    code
}
