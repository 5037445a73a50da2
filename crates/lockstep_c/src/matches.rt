//! The calls over matches.
ghost use Rattle.std.specs.Prelude.{◌≡◌, ◌≢◌};
ghost use Rattle.c_objects.specs.declared.code.TheConstants.{NO_MEMORY};
ghost use Rattle.c_worlds.specs.Held.{game_in, made_in, told_of};
ghost use Rattle.c_worlds.specs.Told.{one_code, one_out};
ghost use Rattle.c_matches.specs.Answers.{answer_by, told_in};
ghost use Rattle.c_matches.specs.Greetings.{greeting_answer, hello_told, welcome_code, welcome_out};
ghost use Rattle.c_matches.specs.Greetings.{welcome_told};
ghost use Rattle.c_matches.specs.Held.{peer_in, server_in, with_peer};
ghost use Rattle.c_matches.specs.Packets.{down_in, orders_in, packet_out, up_in};
ghost use Rattle.c_matches.specs.Peers.{create_code as peer_code, created as peer_created};
ghost use Rattle.c_matches.specs.Peers.{deliver_answer, delivered, report_told, seal_told, sealed};
ghost use Rattle.c_matches.specs.Peers.{tick_answer_of as peer_answer, ticked as peer_ticked};
ghost use Rattle.c_matches.specs.Plays.{bot_told, play_out};
ghost use Rattle.c_matches.specs.Servers.{alarm_told, create_code as server_code};
ghost use Rattle.c_matches.specs.Servers.{created as server_created, dropped, dropped_answer};
ghost use Rattle.c_matches.specs.Servers.{entry_told, received, received_answer};
ghost use Rattle.c_matches.specs.Servers.{tick_answer_of as server_answer, ticked as server_ticked};

use c_matches::{CAlarm, CPacket, CPlay, CTerms};
use c_objects::Object;
use std::alloc::Global;

/// Writes the greeting with which a client begins its link: the version of the packets, and the
/// number of the setup's rules and map.
#[unsafe(no_mangle)]
pub extern "C" fn lockstep_hello(setup: &mut Object, alloc: Global, out: &mut CPacket) -> u32
    ensures code { result ≢ NO_MEMORY
        → result ≡ one_code (told_of (made_in setup.old.held.held) hello_told) }
    ensures out { result ≢ NO_MEMORY
        → out.new ≡ packet_out (told_of (made_in setup.old.held.held) hello_told) out.old }
    ensures memory { result ≡ NO_MEMORY → out.new ≡ out.old }
    ensures stays { setup.new.held.held ≡ setup.old.held.held }
{
    c_matches::hello(setup, alloc, out)
}

/// Decides by the first packet of a link whether its client is in the match of this setup. `REFUSED`
/// where it is not: then the code to send is told, 1 for another version, 2 for other rules or
/// another map, 3 for a packet that is no greeting.
#[unsafe(no_mangle)]
pub extern "C" fn lockstep_greeted(
    setup: &mut Object,
    alloc: Global,
    bytes: &[u8],
    told: &mut u32,
) -> u32
    ensures code { result
        ≡ (answer_by (made_in setup.old.held.held) (greeting_answer (up_in bytes.now))).code }
    ensures told { told.new ≡ told_in
        (answer_by (made_in setup.old.held.held) (greeting_answer (up_in bytes.now))) told.old }
    ensures stays { setup.new.held.held ≡ setup.old.held.held }
{
    c_matches::greeted(setup, alloc, bytes, told)
}

/// Writes the welcome that a server sends to a client, where a match has these terms.
#[unsafe(no_mangle)]
pub extern "C" fn lockstep_welcome(terms: &CTerms, alloc: Global, out: &mut CPacket) -> u32
    ensures code { result ≢ NO_MEMORY → result ≡ one_code (welcome_told terms.now) }
    ensures out { result ≢ NO_MEMORY → out.new ≡ packet_out (welcome_told terms.now) out.old }
    ensures memory { result ≡ NO_MEMORY → out.new ≡ out.old }
{
    c_matches::welcome(terms, alloc, out)
}

/// The terms that a server's first packet has. `REFUSED` where it refuses the client: then `me` is
/// its code, and nothing else is written. The terms may be ones that no match has, which
/// [`lockstep_peer_create`] tells.
#[unsafe(no_mangle)]
pub extern "C" fn lockstep_welcomed(bytes: &[u8], out: &mut CTerms) -> u32
    ensures code { result ≡ welcome_code (down_in bytes.now) }
    ensures out { out.new ≡ welcome_out (down_in bytes.now) out.old }
{
    c_matches::welcomed(bytes, out)
}

/// Makes an empty object the peer of a client of a match, over a setup that was read.
/// `BAD_ARGUMENT` where no match has these terms.
#[unsafe(no_mangle)]
pub extern "C" fn lockstep_peer_create(
    object: &mut Object,
    setup: &mut Object,
    alloc: Global,
    terms: &CTerms,
) -> u32
    ensures setup { setup.new.held.held ≡ setup.old.held.held }
    ensures code { result ≢ NO_MEMORY
        → result ≡ peer_code object.old.held.held setup.old.held.held terms.now }
    ensures after { result ≢ NO_MEMORY
        → object.new.held.held ≡ peer_created object.old.held.held setup.old.held.held terms.now }
    ensures memory { result ≡ NO_MEMORY → object.new.held.held ≡ object.old.held.held }
{
    c_matches::peer_create(object, setup, alloc, terms)
}

/// Delivers a packet of the server to a peer, in any order. Only `OK` changes anything: the entry is
/// new, and kept. `REPEAT`: it is there. `CONFLICT`: another one is. `PAST`: it contradicts what is
/// kept at the frame that is told, a departure before it, or, where it is a departure, the least
/// entry after it. `NO_FRAME`: no match has such a frame. `IGNORED`: the packet is no entry.
/// `BAD_BYTES` also where the match has no such client.
#[unsafe(no_mangle)]
pub extern "C" fn lockstep_peer_deliver(
    object: &mut Object,
    alloc: Global,
    bytes: &[u8],
    told: &mut u32,
) -> u32
    ensures code { result ≢ NO_MEMORY
        → result ≡ (deliver_answer bytes.now object.old.held.held).code }
    ensures told { result ≢ NO_MEMORY
        → told.new ≡ told_in (deliver_answer bytes.now object.old.held.held) told.old }
    ensures after { result ≢ NO_MEMORY
        → object.new.held.held ≡ delivered bytes.now object.old.held.held }
    ensures memory { result ≡ NO_MEMORY → object.new.held.held ≡ object.old.held.held }
    ensures same { result ≡ NO_MEMORY → told.new ≡ told.old }
{
    c_matches::peer_deliver(object, alloc, bytes, told)
}

/// Ticks a peer's next frame. `OK`: the frame is told, by which its world made a step. `NOT_YET`:
/// the least client is told whose entry is missing. `OVER`: all have departed.
#[unsafe(no_mangle)]
pub extern "C" fn lockstep_peer_tick(object: &mut Object, alloc: Global, told: &mut u32) -> u32
    ensures code { result ≡ (peer_answer object.old.held.held).code }
    ensures told { told.new ≡ told_in (peer_answer object.old.held.held) told.old }
    ensures after { object.new.held.held ≡ peer_ticked object.old.held.held }
{
    c_matches::peer_tick(object, alloc, told)
}

/// Seals a peer's next frame with a play, and writes the packet to send to the server. `LEFT`: its
/// own departure has reached it. `FULL`: a match has no more frames. `TOO_EARLY`: as many frames are
/// sealed ahead of the ticked ones as the lag allows. `BAD_BYTES`: the bytes are no play.
#[unsafe(no_mangle)]
pub extern "C" fn lockstep_peer_seal(
    object: &mut Object,
    alloc: Global,
    bytes: &[u8],
    out: &mut CPacket,
) -> u32
    ensures code { result ≢ NO_MEMORY → result
        ≡ one_code (told_of (peer_in object.old.held.held) (seal_told (orders_in bytes.now))) }
    ensures after { result ≢ NO_MEMORY
        → object.new.held.held ≡ with_peer object.old.held.held (sealed (orders_in bytes.now)) }
    ensures out { result ≢ NO_MEMORY → out.new ≡ packet_out
        (told_of (peer_in object.old.held.held) (seal_told (orders_in bytes.now))) out.old }
    ensures memory { result ≡ NO_MEMORY → object.new.held.held ≡ object.old.held.held }
    ensures same { result ≡ NO_MEMORY → out.new ≡ out.old }
{
    c_matches::peer_seal(object, alloc, bytes, out)
}

/// Writes the packet by which a peer tells the server its last ticked frame and the hash after it.
/// `NONE` before its first tick.
#[unsafe(no_mangle)]
pub extern "C" fn lockstep_peer_report(object: &mut Object, alloc: Global, out: &mut CPacket) -> u32
    ensures code { result ≢ NO_MEMORY
        → result ≡ one_code (told_of (peer_in object.old.held.held) report_told) }
    ensures out { result ≢ NO_MEMORY
        → out.new ≡ packet_out (told_of (peer_in object.old.held.held) report_told) out.old }
    ensures memory { result ≡ NO_MEMORY → out.new ≡ out.old }
    ensures stays { object.new.held.held ≡ object.old.held.held }
{
    c_matches::peer_report(object, alloc, out)
}

/// Makes an empty object the server of a match of 1 to 16 clients, over a setup that was read.
#[unsafe(no_mangle)]
pub extern "C" fn lockstep_server_create(
    object: &mut Object,
    setup: &mut Object,
    alloc: Global,
    clients: u32,
    seed: u32,
) -> u32
    ensures setup { setup.new.held.held ≡ setup.old.held.held }
    ensures code { result ≢ NO_MEMORY
        → result ≡ server_code object.old.held.held setup.old.held.held clients }
    ensures after { result ≢ NO_MEMORY → object.new.held.held
        ≡ server_created object.old.held.held setup.old.held.held clients seed }
    ensures memory { result ≡ NO_MEMORY → object.new.held.held ≡ object.old.held.held }
{
    c_matches::server_create(object, setup, alloc, clients, seed)
}

/// Takes a packet of a client. Of orders: `OK` where they are new, `REPEAT` where they are there,
/// `CONFLICT` where others are, `LEFT` where the client left before, at the frame that is told,
/// `AHEAD` where those of the frame that is told come first, and `FULL` where a match has no more
/// frames. Of a report: `OK`, `REPEAT` where one of the frame is there, which stays, and `NO_FRAME`
/// where no match has the frame. A farewell lets the client leave, as [`lockstep_server_drop`]
/// does. `IGNORED`
/// for a greeting, `BAD_ARGUMENT` where the match has no such client. Only `OK` changes anything.
#[unsafe(no_mangle)]
pub extern "C" fn lockstep_server_up(
    object: &mut Object,
    alloc: Global,
    client: u32,
    bytes: &[u8],
    told: &mut u32,
) -> u32
    ensures code { result ≢ NO_MEMORY
        → result ≡ (received_answer client bytes.now object.old.held.held).code }
    ensures told { result ≢ NO_MEMORY
        → told.new ≡ told_in (received_answer client bytes.now object.old.held.held) told.old }
    ensures after { result ≢ NO_MEMORY
        → object.new.held.held ≡ received client bytes.now object.old.held.held }
    ensures memory { result ≡ NO_MEMORY → object.new.held.held ≡ object.old.held.held }
    ensures same { result ≡ NO_MEMORY → told.new ≡ told.old }
{
    c_matches::server_up(object, alloc, client, bytes, told)
}

/// Lets a client leave after the plays that it has: `OK`, or `LEFT` where it has left, and then
/// nothing changes. Either tells the frame of its departure.
#[unsafe(no_mangle)]
pub extern "C" fn lockstep_server_drop(
    object: &mut Object,
    alloc: Global,
    client: u32,
    told: &mut u32,
) -> u32
    ensures code { result ≡ (dropped_answer client object.old.held.held).code }
    ensures told { told.new ≡ told_in (dropped_answer client object.old.held.held) told.old }
    ensures after { object.new.held.held ≡ dropped client object.old.held.held }
{
    c_matches::server_drop(object, alloc, client, told)
}

/// Writes the packet that tells all clients of a client's entry at a frame. `NONE` where none stands
/// there yet, or it left before, `BAD_ARGUMENT` where the match has no such client.
#[unsafe(no_mangle)]
pub extern "C" fn lockstep_server_entry(
    object: &mut Object,
    alloc: Global,
    client: u32,
    frame: u32,
    out: &mut CPacket,
) -> u32
    ensures code { result ≢ NO_MEMORY → result
        ≡ one_code (told_of (server_in object.old.held.held) (entry_told client frame)) }
    ensures out { result ≢ NO_MEMORY → out.new ≡ packet_out
        (told_of (server_in object.old.held.held) (entry_told client frame)) out.old }
    ensures memory { result ≡ NO_MEMORY → out.new ≡ out.old }
    ensures stays { object.new.held.held ≡ object.old.held.held }
{
    c_matches::server_entry(object, alloc, client, frame, out)
}

/// Ticks a server's next frame. `OK`: the frame is told, by which its world made a step. `NOT_YET`:
/// the least client is told that has neither played it nor left. `OVER`: all have left.
#[unsafe(no_mangle)]
pub extern "C" fn lockstep_server_tick(object: &mut Object, alloc: Global, told: &mut u32) -> u32
    ensures code { result ≢ NO_MEMORY → result ≡ (server_answer object.old.held.held).code }
    ensures told { result ≢ NO_MEMORY
        → told.new ≡ told_in (server_answer object.old.held.held) told.old }
    ensures after { result ≢ NO_MEMORY → object.new.held.held ≡ server_ticked object.old.held.held }
    ensures memory { result ≡ NO_MEMORY → object.new.held.held ≡ object.old.held.held }
    ensures same { result ≡ NO_MEMORY → told.new ≡ told.old }
{
    c_matches::server_tick(object, alloc, told)
}

/// The least frame after which a client's report differs from the server's world, with both hashes.
/// `NONE` where there is none, `BAD_ARGUMENT` where the match has no such client.
#[unsafe(no_mangle)]
pub extern "C" fn lockstep_server_alarm(
    object: &mut Object,
    alloc: Global,
    client: u32,
    out: &mut CAlarm,
) -> u32
    ensures code { result
        ≡ one_code (told_of (server_in object.old.held.held) (alarm_told client)) }
    ensures out { out.new
        ≡ one_out (told_of (server_in object.old.held.held) (alarm_told client)) out.old }
    ensures stays { object.new.held.held ≡ object.old.held.held }
{
    c_matches::server_alarm(object, alloc, client, out)
}

/// Writes the play that a bot would make now that is this client, by the world of a world, a peer or
/// a server alone: whoever has the same world gets the same play. `BAD_ARGUMENT` where the match has
/// no such client.
#[unsafe(no_mangle)]
pub extern "C" fn lockstep_bot(
    object: &mut Object,
    alloc: Global,
    client: u32,
    out: &mut CPlay,
) -> u32
    ensures code { result ≢ NO_MEMORY
        → result ≡ one_code (told_of (game_in object.old.held.held) (bot_told client)) }
    ensures out { result ≢ NO_MEMORY
        → out.new ≡ play_out (told_of (game_in object.old.held.held) (bot_told client)) out.old }
    ensures memory { result ≡ NO_MEMORY → out.new ≡ out.old }
    ensures stays { object.new.held.held ≡ object.old.held.held }
{
    c_matches::bot(object, alloc, client, out)
}
