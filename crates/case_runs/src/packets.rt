use base::NoMemory;
use order_packets::{Feeder, Packet};
use std::alloc::Global;

/// The packets of these bytes. There are none where the bytes end within a packet, or one has a
/// fault.
pub fn read_packets<P: Packet>(alloc: Global, bytes: &[u8]) -> Result<Option<Vec<P>>, NoMemory> {
    let mut feeder = Feeder::<P>::create(alloc)?;
    feeder.feed(bytes)?;
    let mut packets = Vec::new(alloc);
    for _ in 0..bytes.len() {
        match feeder.next() {
            Ok(Some(packet)) => packets.push(packet)?,
            Ok(None) => break,
            Err(_) => return Ok(None),
        }
    }
    match feeder.held() {
        0 => Ok(Some(packets)),
        _ => Ok(None),
    }
}
