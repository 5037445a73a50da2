//! What a player wrote to a link.

use crate::packets::read_packets;
use base::NoMemory;
use order_packets::{Up, write_up};
use std::alloc::Global;

/// What a player wrote to a link, without its reports. There is none where the bytes are no whole
/// packets.
pub fn without_reports(alloc: Global, bytes: &[u8]) -> Result<Option<Vec<u8>>, NoMemory> {
    let Some(packets) = read_packets::<Up>(alloc, bytes)? else {
        return Ok(None);
    };
    let mut others = Vec::new(alloc);
    for packet in &packets {
        if !is_report(packet) {
            write_up(&mut others, packet)?;
        }
    }
    Ok(Some(others))
}

/// Whether a packet is a report.
fn is_report(packet: &Up) -> bool {
    matches!(packet, Up::Sync { .. })
}
