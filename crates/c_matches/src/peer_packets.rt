ghost use Rattle.std.specs.Prelude.{◌≡◌, ◌≢◌};
ghost use Rattle.c_objects.specs.declared.code.TheConstants.{NO_MEMORY};
ghost use Rattle.c_worlds.specs.Held.{told_of};
ghost use Rattle.c_worlds.specs.Told.{one_code};
ghost use Rattle.c_matches.specs.Held.{peer_in, with_peer};
ghost use Rattle.c_matches.specs.Packets.{orders_in, packet_out};
ghost use Rattle.c_matches.specs.Peers.{report_told, seal_code, seal_told, sealed};

use crate::packet::{CPacket, give_up, put_bytes, spell_up};
use crate::packet_reading::orders_in;
use c_objects::{
    BAD_BYTES, FULL, Kept, LEFT, NO_MEMORY, NONE, OK, Object, TOO_EARLY, WRONG_OBJECT,
};
use order_packets::Up;
use peer_core::{Peer, SealFault};
use std::alloc::Global;
use tick_core::Game;

/// The code for why no frame is sealed.
fn seal_code(fault: &SealFault) -> u32
    ensures code { result ≡ seal_code fault.now }
    ensures memory { result ≢ NO_MEMORY }
{
    match fault {
        SealFault::TooEarly => TOO_EARLY,
        SealFault::LeftAlready => LEFT,
        SealFault::MatchFull => FULL,
    }
}

/// Seals a peer's next frame, as [`peer_seal`] does. The packet is spelled first, since a frame that
/// is sealed can't be taken back.
fn seal(peer: &mut Peer<Game>, alloc: Global, bytes: &[u8], out: &mut CPacket) -> u32
    ensures code { result ≢ NO_MEMORY
        → result ≡ one_code (seal_told (orders_in bytes.now) peer.old) }
    ensures after { result ≢ NO_MEMORY → peer.new ≡ sealed (orders_in bytes.now) peer.old }
    ensures out { result ≢ NO_MEMORY
        → out.new ≡ packet_out (seal_told (orders_in bytes.now) peer.old) out.old }
    ensures memory { result ≡ NO_MEMORY → peer.new ≡ peer.old }
    ensures same { result ≡ NO_MEMORY → out.new ≡ out.old }
{
    let Some(orders) = orders_in(bytes) else {
        return BAD_BYTES;
    };
    let frame = peer.sealed();
    let Ok(spelled) = spell_up(alloc, &Up::Orders { frame, orders }) else {
        return NO_MEMORY;
    };
    match peer.seal() {
        Ok(_) => {
            put_bytes(&spelled, out);
            OK
        }
        Err(fault) => seal_code(&fault),
    }
}

/// Seals a peer's next frame with a play, and writes the packet to send to the server. `LEFT`: its
/// own departure has reached it. `FULL`: a match has no more frames. `TOO_EARLY`: as many frames are
/// sealed ahead of the ticked ones as the lag allows. `BAD_BYTES`: the bytes are no play.
pub fn peer_seal(object: &mut Object, alloc: Global, bytes: &[u8], out: &mut CPacket) -> u32
    ensures code { result ≢ NO_MEMORY → result
        ≡ one_code (told_of (peer_in object.old.held.held) (seal_told (orders_in bytes.now))) }
    ensures after { result ≢ NO_MEMORY
        → object.new.held.held ≡ with_peer object.old.held.held (sealed (orders_in bytes.now)) }
    ensures out { result ≢ NO_MEMORY → out.new ≡ packet_out
        (told_of (peer_in object.old.held.held) (seal_told (orders_in bytes.now))) out.old }
    ensures memory { result ≡ NO_MEMORY → object.new.held.held ≡ object.old.held.held }
    ensures same { result ≡ NO_MEMORY → out.new ≡ out.old }
{
    let Some(mut kept) = object.take(alloc) else {
        return WRONG_OBJECT;
    };
    let code = match &mut *kept {
        Kept::Peer(peer) => seal(peer, alloc, bytes, out),
        _ => WRONG_OBJECT,
    };
    object.put(kept);
    code
}

/// Writes a peer's report, as [`peer_report`] does.
fn report_to(peer: &Peer<Game>, alloc: Global, out: &mut CPacket) -> u32
    ensures code { result ≢ NO_MEMORY → result ≡ one_code (report_told peer.now) }
    ensures out { result ≢ NO_MEMORY → out.new ≡ packet_out (report_told peer.now) out.old }
    ensures memory { result ≡ NO_MEMORY → out.new ≡ out.old }
{
    match peer.report() {
        Some(report) => {
            let packet = Up::Sync {
                frame: report.frame,
                hash: report.hash,
            };
            give_up(alloc, &packet, out)
        }
        None => NONE,
    }
}

/// Writes the packet by which a peer tells the server its last ticked frame and the hash after it.
/// `NONE` before its first tick.
pub fn peer_report(object: &mut Object, alloc: Global, out: &mut CPacket) -> u32
    ensures code { result ≢ NO_MEMORY
        → result ≡ one_code (told_of (peer_in object.old.held.held) report_told) }
    ensures out { result ≢ NO_MEMORY
        → out.new ≡ packet_out (told_of (peer_in object.old.held.held) report_told) out.old }
    ensures memory { result ≡ NO_MEMORY → out.new ≡ out.old }
    ensures stays { object.new.held.held ≡ object.old.held.held }
{
    let Some(kept) = object.take(alloc) else {
        return WRONG_OBJECT;
    };
    let code = match &*kept {
        Kept::Peer(peer) => report_to(peer, alloc, out),
        _ => WRONG_OBJECT,
    };
    object.put(kept);
    code
}
