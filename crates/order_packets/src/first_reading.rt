ghost use Rattle.std.specs.Prelude.{◌≡◌, ◌≤◌, ◌++◌, drop, length, IfOk};
ghost use Rattle.order_packets.specs.PacketReading.{payload_at, packet_at};
ghost use Rattle.order_packets.specs.PacketBytes.{framed};
ghost use Rattle.order_packets.specs.First.{GivesFirst, IfFound, IfNotFound};

use crate::feed_fault::FeedFault;
use crate::limits::MAX_PAYLOAD;
use crate::packet::Packet;
use wire_bytes::Cursor;

/// The packet of a whole payload.
#[tactic(auto, unfolding(crate::specs::PacketReading::payload_at))]
fn read_payload<P: Packet>(payload: &[u8]) -> Result<P, FeedFault>
    ensures reads { result ≡ payload_at P.at payload.now }
    ensures spelled { IfOk result (λ packet. payload.now ≡ P.payload packet) }
{
    let mut c = Cursor::over(payload);
    let packet = P::read(&mut c)?;
    if c.left() > 0 {
        return Err(FeedFault::TrailingInPacket);
    }
    Ok(packet)
}

/// The packet that the bytes begin with, and the length of its spelling, at most that of the bytes.
/// None exactly where they are less than a whole packet, with no fault so far: then they are at
/// most 257.
///
/// The first fault from the left is the answer: `LengthTooLarge` exactly at a length above
/// [`crate::MAX_PAYLOAD`]; then that of the payload, which is looked at only where all of it is
/// there, `TrailingInPacket` exactly where the packet ends before it.
#[tactic(auto, using(crate::proofs::FirstLemmas::few_steps), unfolding(crate::specs::PacketReading::packet_at, crate::specs::PacketReading::sized_at))]
pub fn first_packet<P: Packet>(bytes: &[u8]) -> Result<Option<(P, usize)>, FeedFault>
    ensures reads { GivesFirst bytes.now result (packet_at P.at bytes.now) }
    ensures spelled { IfFound result (λ packet taken. bytes.now ≡ framed (P.payload packet)
        ++ drop taken bytes.now) }
    ensures few { IfNotFound result (length bytes.now ≤ 257) }
{
    let mut c = Cursor::over(bytes);
    let Ok(length) = c.read_u16() else {
        return Ok(None);
    };
    if length > MAX_PAYLOAD {
        return Err(FeedFault::LengthTooLarge);
    }
    let length = usize::from(length);
    if c.left() < length {
        return Ok(None);
    }
    let packet = read_payload::<P>(&c.rest()[..length])?;
    Ok(Some((packet, 2 + length)))
}
