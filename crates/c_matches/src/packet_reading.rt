ghost use Rattle.std.specs.Prelude.{◌≡◌};
ghost use Rattle.order_packets.specs.PacketReading.{packet_at};
ghost use Rattle.c_matches.specs.Packets.{alone, orders_in};

use c_worlds::read_frame;
use game_orders::{Entry, Orders};
use order_packets::{Packet, first_packet};

/// The packet that the bytes are, with nothing behind it.
#[tactic(auto, unfolding(crate::specs::Packets::alone))]
pub(crate) fn packet_in<P: Packet>(bytes: &[u8]) -> Option<P>
    ensures { result ≡ alone (packet_at P.at bytes.now) }
{
    match first_packet::<P>(bytes) {
        Ok(Some((packet, taken))) => {
            if taken == bytes.len() {
                Some(packet)
            } else {
                None
            }
        }
        Ok(None) => None,
        Err(_) => None,
    }
}

/// The orders of a play.
pub(crate) fn orders_in(bytes: &[u8]) -> Option<Orders>
    ensures { result ≡ orders_in bytes.now }
{
    let frame = read_frame(&[false], bytes)?;
    match frame.get(0) {
        Some(Entry::Play(orders)) => Some(orders.copy()),
        Some(Entry::Leave) => None,
        None => None,
    }
}
