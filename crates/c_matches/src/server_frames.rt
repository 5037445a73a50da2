ghost use Rattle.std.specs.Prelude.{◌≡◌, ◌≢◌};
ghost use Rattle.c_objects.specs.declared.code.TheConstants.{NO_MEMORY};
ghost use Rattle.c_worlds.specs.Held.{told_of};
ghost use Rattle.c_worlds.specs.Told.{one_code, one_out};
ghost use Rattle.c_matches.specs.Answers.{only, told_in};
ghost use Rattle.c_matches.specs.Held.{server_in};
ghost use Rattle.c_matches.specs.Packets.{packet_out};
ghost use Rattle.c_matches.specs.Servers.{alarm_told, entry_told, server_tick_answer};
ghost use Rattle.c_matches.specs.Servers.{tick_answer_of, ticked};
ghost use Rattle.server_core.specs.Server.{after_tick};
ghost use Rattle.tick_core.specs.Game.{game_after, game_hash};

use crate::answer::Answer;
use crate::packet::{CPacket, give_down};
use crate::peers::of_tick;
use c_objects::{BAD_ARGUMENT, Kept, NO_MEMORY, NONE, OK, Object, WRONG_OBJECT};
use order_packets::Down;
use server_core::Server;
use std::alloc::Global;
use tick_core::Game;

/// The first difference of a client's world from the server's, as C reads it.
#[repr(C)]
#[derive(Drop)]
pub struct CAlarm {
    /// The frame after which they differ.
    pub frame: u32,
    /// The hash that the client reported.
    pub got: u64,
    /// The hash of the server's world.
    pub want: u64,
}

/// Writes an entry, as [`server_entry`] does.
fn entry_to(server: &Server<Game>, alloc: Global, client: u32, frame: u32, out: &mut CPacket) -> u32
    ensures code { result ≢ NO_MEMORY → result ≡ one_code (entry_told client frame server.now) }
    ensures out { result ≢ NO_MEMORY
        → out.new ≡ packet_out (entry_told client frame server.now) out.old }
    ensures memory { result ≡ NO_MEMORY → out.new ≡ out.old }
{
    if client >= u32::from(server.columns().clients()) {
        return BAD_ARGUMENT;
    }
    match server.columns().entry(client as u8, frame) {
        Some(entry) => {
            let packet = Down::Entry {
                client: client as u8,
                frame,
                entry: entry.copy(),
            };
            give_down(alloc, &packet, out)
        }
        None => NONE,
    }
}

/// Writes the packet that tells all clients of a client's entry at a frame. `NONE` where none stands
/// there yet, or it left before, `BAD_ARGUMENT` where the match has no such client.
pub fn server_entry(
    object: &mut Object,
    alloc: Global,
    client: u32,
    frame: u32,
    out: &mut CPacket,
) -> u32
    ensures code { result ≢ NO_MEMORY → result
        ≡ one_code (told_of (server_in object.old.held.held) (entry_told client frame)) }
    ensures out { result ≢ NO_MEMORY → out.new ≡ packet_out
        (told_of (server_in object.old.held.held) (entry_told client frame)) out.old }
    ensures memory { result ≡ NO_MEMORY → out.new ≡ out.old }
    ensures stays { object.new.held.held ≡ object.old.held.held }
{
    let Some(kept) = object.take(alloc) else {
        return WRONG_OBJECT;
    };
    let code = match &*kept {
        Kept::Server(server) => entry_to(server, alloc, client, frame, out),
        _ => WRONG_OBJECT,
    };
    object.put(kept);
    code
}

/// Ticks a server's next frame, as [`server_tick`] does.
fn tick(server: &mut Server<Game>) -> Answer
    ensures answer { result.code ≢ NO_MEMORY → result ≡ server_tick_answer server.old }
    ensures after { result.code ≢ NO_MEMORY
        → server.new ≡ after_tick game_after game_hash server.old }
    ensures memory { result.code ≡ NO_MEMORY → server.new ≡ server.old }
    ensures quiet { result.code ≡ NO_MEMORY → result ≡ only NO_MEMORY }
{
    match server.tick() {
        Ok(answer) => of_tick(answer),
        Err(_) => Answer::only(NO_MEMORY),
    }
}

/// Ticks a server's next frame. `OK`: the frame is told, by which its world made a step. `NOT_YET`:
/// the least client is told that has neither played it nor left. `OVER`: all have left.
pub fn server_tick(object: &mut Object, alloc: Global, told: &mut u32) -> u32
    ensures code { result ≢ NO_MEMORY → result ≡ (tick_answer_of object.old.held.held).code }
    ensures told { result ≢ NO_MEMORY
        → told.new ≡ told_in (tick_answer_of object.old.held.held) told.old }
    ensures after { result ≢ NO_MEMORY → object.new.held.held ≡ ticked object.old.held.held }
    ensures memory { result ≡ NO_MEMORY → object.new.held.held ≡ object.old.held.held }
    ensures same { result ≡ NO_MEMORY → told.new ≡ told.old }
{
    let Some(mut kept) = object.take(alloc) else {
        return WRONG_OBJECT;
    };
    let answer = match &mut *kept {
        Kept::Server(server) => tick(server),
        _ => Answer::only(WRONG_OBJECT),
    };
    object.put(kept);
    answer.tell(told)
}

/// Writes a client's alarm, as [`server_alarm`] does.
fn alarm_to(server: &Server<Game>, client: u32, out: &mut CAlarm) -> u32
    ensures code { result ≡ one_code (alarm_told client server.now) }
    ensures out { out.new ≡ one_out (alarm_told client server.now) out.old }
{
    if client >= u32::from(server.columns().clients()) {
        return BAD_ARGUMENT;
    }
    match server.board().alarm(client as u8) {
        Some(alarm) => {
            *out = CAlarm {
                frame: alarm.frame,
                got: alarm.got,
                want: alarm.want,
            };
            OK
        }
        None => NONE,
    }
}

/// The least frame after which a client's report differs from the server's world, with both hashes.
/// `NONE` where there is none, `BAD_ARGUMENT` where the match has no such client.
pub fn server_alarm(object: &mut Object, alloc: Global, client: u32, out: &mut CAlarm) -> u32
    ensures code { result
        ≡ one_code (told_of (server_in object.old.held.held) (alarm_told client)) }
    ensures out { out.new
        ≡ one_out (told_of (server_in object.old.held.held) (alarm_told client)) out.old }
    ensures stays { object.new.held.held ≡ object.old.held.held }
{
    let Some(kept) = object.take(alloc) else {
        return WRONG_OBJECT;
    };
    let code = match &*kept {
        Kept::Server(server) => alarm_to(server, client, out),
        _ => WRONG_OBJECT,
    };
    object.put(kept);
    code
}
