ghost use Rattle.std.specs.Prelude.{◌≡◌, ◌≢◌, ◌≤◌, length, IfOk};
ghost use Rattle.c_objects.specs.declared.code.TheConstants.{NO_MEMORY, OK};
ghost use Rattle.c_matches.specs.Packets.{packet_with};
ghost use Rattle.c_matches.specs.declared.packet.TheConstants.{PACKET_ROOM};
ghost use Rattle.order_packets.specs.PacketBytes.{down_bytes, up_bytes};

use base::NoMemory;
use c_objects::{NO_MEMORY, OK};
use order_packets::{Down, Up, down_fits, up_fits, write_down, write_up};
use std::alloc::Global;

/// The room for a packet: its length in two bytes, and a payload of at most 256.
pub(crate) const PACKET_ROOM: usize = 260;

/// A packet, as C holds it.
#[repr(C)]
#[derive(Drop)]
pub struct CPacket {
    /// How many bytes it has.
    pub len: u32,
    /// Its bytes, and behind them whatever stood there.
    pub bytes: [u8; 260],
}

/// Writes the bytes of a packet.
pub(crate) fn put_bytes(bytes: &[u8], out: &mut CPacket)
    requires { length bytes.now ≤ PACKET_ROOM }
    ensures { out.new ≡ packet_with bytes.now out.old }
{
    out.len = bytes.len() as u32;
    out.bytes[..bytes.len()].copy_from_slice(bytes);
}

/// The bytes of a packet to the server.
#[tactic(auto, using(crate::proofs::PacketLemmas::short_up))]
pub(crate) fn spell_up(alloc: Global, packet: &Up) -> Result<Vec<u8>, NoMemory>
    ensures bytes { IfOk result (λ bytes. bytes.items ≡ up_bytes packet.now) }
    ensures short { IfOk result (λ bytes. length bytes.items ≤ PACKET_ROOM) }
{
    let mut bytes = Vec::new(alloc);
    write_up(&mut bytes, packet)?;
    up_fits(packet);
    Ok(bytes)
}

/// The bytes of a packet to a client.
#[tactic(auto, using(crate::proofs::PacketLemmas::short_down))]
fn spell_down(alloc: Global, packet: &Down) -> Result<Vec<u8>, NoMemory>
    ensures bytes { IfOk result (λ bytes. bytes.items ≡ down_bytes packet.now) }
    ensures short { IfOk result (λ bytes. length bytes.items ≤ PACKET_ROOM) }
{
    let mut bytes = Vec::new(alloc);
    write_down(&mut bytes, packet)?;
    down_fits(packet);
    Ok(bytes)
}

/// Writes a packet to the server.
pub(crate) fn give_up(alloc: Global, packet: &Up, out: &mut CPacket) -> u32
    ensures code { result ≢ NO_MEMORY → result ≡ OK }
    ensures out { result ≢ NO_MEMORY → out.new ≡ packet_with (up_bytes packet.now) out.old }
    ensures memory { result ≡ NO_MEMORY → out.new ≡ out.old }
{
    match spell_up(alloc, packet) {
        Ok(bytes) => {
            put_bytes(&bytes, out);
            OK
        }
        Err(_) => NO_MEMORY,
    }
}

/// Writes a packet to a client.
pub(crate) fn give_down(alloc: Global, packet: &Down, out: &mut CPacket) -> u32
    ensures code { result ≢ NO_MEMORY → result ≡ OK }
    ensures out { result ≢ NO_MEMORY → out.new ≡ packet_with (down_bytes packet.now) out.old }
    ensures memory { result ≡ NO_MEMORY → out.new ≡ out.old }
{
    match spell_down(alloc, packet) {
        Ok(bytes) => {
            put_bytes(&bytes, out);
            OK
        }
        Err(_) => NO_MEMORY,
    }
}
